// Marks in a long book (02, L6): each keeps the book's numbers and tables under a name, in a row of a table that goes with the book.
#![tactic(auto)]

ghost use Rattle.std.specs.Prelude.{◌≡◌, [], ◌++◌, ◌+◌, ◌-◌, ◌<◌, ◌≤◌, ◌==◌, IfSome, unwrap_or, position, slice_index, length, get_or, take, drop, set, replicate, true, false, eqb};
ghost use Rattle.exact.specs.Choice.{pick};
ghost use Rattle.book_model.specs.Calls.{told, marked, place_named, back_at, state_marked};
ghost use Rattle.book_model.specs.Steps.{part_marked};
ghost use Rattle.book_model.specs.Marks.{numbers_of, row_of, book_in_lem, cells_in, index_in, empty_row, no_marks, names_in, place_among, mark_refusal, kept_in};

use book_model::{Book, OpenBook};
use cell_report::Cells;
use figures::{Counts, Money, Sums};
use fixed_point::Signed;
use house_index::Index;
use line_forms::{Header, MarkLine, Refusal};

// A row: the name, the count of index lines and 18 sums; from CELLS on the 240 numbers of the cells; from INDEX on the 1,584 of the index.
// Kept: the definitions numbers_of, book_in_lem, row_of, cells_in and index_in speak of the row's numbers by their places.
const CELLS: usize = 20;

const INDEX: usize = 260;

pub const ROW: usize = 1844;

pub const MOST: usize = 8;

pub type Row = book_model::Row;

pub type Marks = book_model::Marks;

// No mark: a name of 0. A call keeps the zeros out of what is to be shown elsewhere.
fn no_row() -> Row
    ensures { result ≡ empty_row }
{
    [0; ROW]
}

// A table without a mark.
pub fn none() -> Marks
    ensures { result ≡ no_marks }
{
    let row = no_row();
    [row; MOST]
}

// The rows from one on are cleared. A slice, since a proof knows the length of a slice and not of an array behind a reference; so below.
fn clear_from(rows: &mut [Row], from: usize)
    requires { from ≤ length rows.old }
    ensures { rows.new ≡ take from rows.old ++ replicate (length rows.old - from) empty_row }
{
    let none = no_row();
    let rest = &mut rows[from..];
    for row in rest.iter_mut() {
        *row = none;
    }
}

// No mark is kept.
pub fn clear(marks: &mut Marks)
    ensures { marks.new ≡ no_marks }
{
    clear_from(marks, 0);
}

// The first of rows that is of a name.
fn row_named(rows: &[Row], name: u64) -> Option<usize>
    ensures { result ≡ position (λ row. slice_index row 0 == name) rows.now }
{
    rows.iter().position(|row| row[0] == name)
}

// The first row of this name. The name 0 finds the first free row.
pub fn find(marks: &Marks, name: u64) -> Option<usize>
    ensures place { unwrap_or result 8 ≡ place_among name (names_in marks.now) }
    ensures inside { IfSome result (λ at. at < 8) }
    ensures size { length marks.now ≡ 8 }
{
    row_named(marks, name)
}

// A row with other numbers from a place on.
fn put(row: &mut [u64], at: usize, part: &[u64])
    requires { at + length part.now ≤ length row.old }
    ensures { row.new ≡ take at row.old ++ (part.now ++ drop (at + length part.now) row.old) }
{
    let end = at + part.len();
    row[at..end].copy_from_slice(part);
}

// What a row starts with.
fn numbers(name: u64, b: Book) -> [u64; CELLS]
    ensures { result ≡ numbers_of name b }
{
    let s = b.sums;
    [
        name,
        b.indexed,
        s.counts.loans,
        s.counts.unscored,
        s.counts.fresh,
        s.counts.other,
        s.total.plus,
        s.total.minus,
        s.supplement.plus,
        s.supplement.minus,
        s.rest.cents,
        s.rest.parts,
        s.moved.cents,
        s.moved.parts,
        s.equity.plus,
        s.equity.minus,
        s.aoci.plus,
        s.aoci.minus,
        s.b,
        s.c,
    ]
}

// The row that keeps a book with its tables.
fn row_of(name: u64, b: Book, cells: &Cells, index: &Index) -> Row
    ensures { result ≡ row_of name b cells.now index.now }
{
    let first = numbers(name, b);
    let mut row = no_row();
    put(&mut row, 0, &first);
    put(&mut row, CELLS, cells);
    put(&mut row, INDEX, index);
    row
}

// The book as it is, under a name, in a row.
pub fn keep(open_book: &mut OpenBook, at: usize, name: u64)
    requires { at < 8 }
    ensures { open_book.new ≡ record open_book.old { marks = set open_book.old.marks at (row_of name open_book.old.book open_book.old.cells open_book.old.index) } }
{
    open_book.marks[at] = row_of(name, open_book.book, &open_book.cells, &open_book.index);
}

// The book that a row keeps, with the header, which is the same at every mark.
fn book_in(header: Header, row: &Row) -> Book
    ensures { result ≡ book_in_lem header row.now }
{
    let counts = Counts {
        loans: row[2],
        unscored: row[3],
        fresh: row[4],
        other: row[5],
    };
    let sums = Sums {
        counts,
        total: Signed {
            plus: row[6],
            minus: row[7],
        },
        supplement: Signed {
            plus: row[8],
            minus: row[9],
        },
        rest: Money {
            cents: row[10],
            parts: row[11],
        },
        moved: Money {
            cents: row[12],
            parts: row[13],
        },
        equity: Signed {
            plus: row[14],
            minus: row[15],
        },
        aoci: Signed {
            plus: row[16],
            minus: row[17],
        },
        b: row[18],
        c: row[19],
    };
    Book {
        header,
        sums,
        indexed: row[1],
    }
}

// The tables that a row keeps.
fn copy_tables(row: &Row, cells: &mut Cells, index: &mut Index)
    ensures cells { cells.new ≡ cells_in row.now }
    ensures index { index.new ≡ index_in row.now }
{
    let numbers: &[u64] = row;
    cells.copy_from_slice(&numbers[CELLS..INDEX]);
    index.copy_from_slice(&numbers[INDEX..ROW]);
}

// The book as it was when a row was kept; the rows after it are cleared.
pub fn restore(open_book: &mut OpenBook, at: usize)
    requires { at < 8 }
    ensures { open_book.new ≡ back_at open_book.old at }
{
    let row = open_book.marks[at];
    open_book.book = book_in(open_book.book.header, &row);
    copy_tables(&row, &mut open_book.cells, &mut open_book.index);
    clear_from(&mut open_book.marks, at + 1);
}

// A mark: 13 where its name is kept, then 14 where no row is free.
fn set_mark(open_book: &mut OpenBook, name: u64) -> Result<(), Refusal>
    ensures refusal { told result ≡ mark_refusal (kept_in open_book.old.marks) (record { back = false; name = name }) }
    ensures state { open_book.new ≡ pick (eqb (told result) 0) (marked open_book.old name) open_book.old }
{
    if find(&open_book.marks, name).is_some() {
        return Err(Refusal::MarkKept);
    }
    let Some(free) = find(&open_book.marks, 0) else {
        return Err(Refusal::MarksFull);
    };
    keep(open_book, free, name);
    Ok(())
}

// A return: 15 where its name is not kept.
fn back_to(open_book: &mut OpenBook, name: u64) -> Result<(), Refusal>
    ensures refusal { told result ≡ mark_refusal (kept_in open_book.old.marks) (record { back = true; name = name }) }
    ensures state { open_book.new ≡ pick (eqb (told result) 0) (back_at open_book.old (place_named open_book.old name)) open_book.old }
{
    let Some(at) = find(&open_book.marks, name) else {
        return Err(Refusal::NoMark);
    };
    restore(open_book, at);
    Ok(())
}

// A mark or return is fed to a book.
pub fn feed(open_book: &mut OpenBook, m: MarkLine) -> Result<(), Refusal>
    ensures refusal { told result ≡ mark_refusal (kept_in open_book.old.marks) m }
    ensures state { open_book.new ≡ state_marked (told result) open_book.old m }
    ensures parts { open_book.new ≡ part_marked (told result) m (back_at open_book.old (place_named open_book.old m.name)) (marked open_book.old m.name) open_book.old }
{
    if m.back {
        back_to(open_book, m.name)
    } else {
        set_mark(open_book, m.name)
    }
}
