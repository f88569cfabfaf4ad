// Opening, feeding and closing a book (document 01, "A book, line by line").
#![tactic(auto)]

ghost use Rattle.std.specs.Prelude.{◌≡◌, ◌≤◌, IfOk, eqb, length, set};
ghost use Rattle.exact.specs.Choice.{pick};
ghost use Rattle.loan_charge.specs.Tables.{exponentials};
ghost use Rattle.loan_charge.specs.CreditFactor.{built_in_sheet};
ghost use Rattle.line_forms.specs.declared.Content.TheVariants.{Loan as loan, Index as index_content};
ghost use Rattle.line_forms.specs.Claims.{line_content};
ghost use Rattle.figures.specs.Sums.{Bounded, InLimits, plus, no_sums};
ghost use Rattle.report.specs.Line.{Written};
ghost use Rattle.book_model.specs.Accepted.{loan_refusal, other_refusal, index_refusal};
ghost use Rattle.book_model.specs.Calls.{told, answered, closed_by, basis_in, counts_of, opening, book_with, table_with, feeding_line, feeding};
ghost use Rattle.book_model.specs.Calls.{SoundBook, Sound};
ghost use Rattle.book_model.specs.Calls.{report_size, report_of, closing, closed, closing_cells, closed_cells};
ghost use Rattle.book_model.specs.HouseIndex.{adjustment_of, values_at, index_with};
ghost use Rattle.book_model.specs.LineKinds.{another, kind_counts};
ghost use Rattle.book_model.specs.Ranges.{Ranged, LoanRanges, IndexRanges};
ghost use Rattle.book_model.specs.Share.{loan_share};

use book_model::{Book, OpenBook};
use cell_report::{Cell, Cells};
use figures::Sums;
use line_forms::{IndexValue, Line, Loan, Refusal};
use loan_charge::charge::Exponentials;
pub use unopened_book::{copy_unmarked, reset, unopened};

// A report buffer has at least so many bytes.
const REPORT_SIZE: usize = 512;

// A buffer for the table of cells has at least so many.
const CELLS_SIZE: usize = 8192;

// A header line and a sheet of factors open a book (02, L3), whatever the one lent was: where the sheet breaks a rule, 10 comes back after
// the header's own refusals.
pub fn open_sheet(open_book: &mut OpenBook, line: &[u8], sheet: &[u64]) -> Result<(), Refusal>
    ensures equation { answered result open_book.new ≡ opening sheet.now line.now }
    ensures sound { Sound open_book.new }
{
    reset(open_book);
    let header = line_reading::read_header(line)?;
    if !sheet::passes(sheet) {
        return Err(Refusal::BadSheet);
    }
    open_book.book = book_model::empty(header);
    sheet::fill(&mut open_book.rates, sheet);
    Ok(())
}

// A header line opens a book under the regulator's table.
pub fn open(open_book: &mut OpenBook, line: &[u8]) -> Result<(), Refusal>
    ensures equation { answered result open_book.new ≡ opening built_in_sheet line.now }
    ensures sound { Sound open_book.new }
{
    let sheet = sheet::built_in();
    open_sheet(open_book, line, &sheet)
}

// A line's share is added.
fn add_share(b: &mut Book, share: Sums)
    requires { Bounded b.old.sums × Bounded share × InLimits (plus b.old.sums share) }
    ensures { b.new ≡ book_with 0 b.old share 0 }
{
    b.sums = figures::add(b.sums, share);
}

// A line that is neither a loan nor an index value.
fn add_other(b: &mut Book, share: Sums) -> Result<(), Refusal>
    requires { SoundBook b.old × Bounded share × (share.counts ≡ kind_counts another) }
    ensures refusal { told result ≡ other_refusal (counts_of b.old) }
    ensures book { b.new ≡ book_with (other_refusal (counts_of b.old)) b.old share 0 }
{
    if limits::is_full(b) {
        return Err(Refusal::LinesFull);
    }
    add_share(b, share);
    Ok(())
}

// An index value.
fn add_index(open_book: &mut OpenBook, i: IndexValue) -> Result<(), Refusal>
    requires { SoundBook open_book.old.book × IndexRanges i }
    ensures refusal { told result ≡ index_refusal (counts_of open_book.old.book) (values_at open_book.old.index i.area i.month) }
    ensures state { open_book.new ≡ record open_book.old {
      book = book_with (told result) open_book.old.book no_sums 1;
      index = pick (eqb (told result) 0) (index_with (index_content i) open_book.old.index) open_book.old.index;
    } }
{
    if limits::is_full(&open_book.book) {
        return Err(Refusal::LinesFull);
    }
    if house_index::before(&open_book.index, i) != 0 {
        return Err(Refusal::ValueSet);
    }
    house_index::set(&mut open_book.index, i);
    open_book.book.indexed += 1;
    Ok(())
}

fn add_loan(open_book: &mut OpenBook, exps: &Exponentials, l: Loan) -> Result<(), Refusal>
    requires { Sound open_book.old × LoanRanges l × (exps.now ≡ exponentials) }
    ensures refusal { told result ≡
        loan_refusal open_book.old.book.header (counts_of open_book.old.book) (adjustment_of (values_at open_book.old.index) l) l.score }
    ensures state { open_book.new ≡ record open_book.old {
      book = book_with (told result) open_book.old.book (loan_share (basis_in open_book.old) l) 0;
      cells = table_with (told result) (basis_in open_book.old) (loan l) open_book.old.cells;
    } }
{
    let header = open_book.book.header;
    if limits::loan_beyond(header, open_book.book.sums.counts, l.score) {
        return Err(Refusal::LoanBeyond);
    }
    let a = house_index::adjustment(l, &open_book.index);
    if house_index::is_lacking(a) {
        return Err(Refusal::ValueLacking);
    }
    let place = cells::place_of(l, a);
    let share = shares::loan(header, l, a, exps, &open_book.rates);
    let cell = Cell {
        count: 1,
        balance: l.balance,
        charge: share.total,
    };
    cells::add_cell(&mut open_book.cells, place, cell);
    add_share(&mut open_book.book, share);
    Ok(())
}

// A line that was read.
fn feed_line(open_book: &mut OpenBook, exps: &Exponentials, line: Line) -> Result<(), Refusal>
    requires { Sound open_book.old × Ranged (line_content line) × (exps.now ≡ exponentials) }
    ensures { answered result open_book.new ≡ feeding_line open_book.old line }
{
    let b = &mut open_book.book;
    match line {
        Line::Loan(l) => add_loan(open_book, exps, l),
        Line::Policy(p) => add_other(b, shares::policy(p)),
        Line::Derivative(d) => add_other(b, shares::derivative(d)),
        Line::Asset(a) => add_other(b, shares::asset(a)),
        Line::Amount(a) => add_other(b, shares::amount(a)),
        Line::Index(i) => add_index(open_book, i),
        Line::Mark(m) => marks::feed(open_book, m),
        Line::Refusal(refusal) => Err(refusal),
    }
}

// A line is fed to a book, with the constant table lent too: for loops, since a constant array would be stored whole at every use.
pub fn feed_with(open_book: &mut OpenBook, exps: &Exponentials, line: &[u8]) -> Result<(), Refusal>
    requires { Sound open_book.old × (exps.now ≡ exponentials) }
    ensures equation { answered result open_book.new ≡ feeding open_book.old line.now }
    ensures sound { Sound open_book.new }
{
    let read = line_reading::read_line(line);
    let Line::Refusal(refusal) = read else {
        return feed_line(open_book, exps, read);
    };
    Err(refusal)
}

// A line is fed to a book as its opening and the feedings since left it.
pub fn feed(open_book: &mut OpenBook, line: &[u8]) -> Result<(), Refusal>
    requires { Sound open_book.old }
    ensures equation { answered result open_book.new ≡ feeding open_book.old line.now }
    ensures sound { Sound open_book.new }
{
    let exps = loan_charge::charge::table();
    feed_with(open_book, &exps, line)
}

// The report of a book.
fn put_report(b: &Book, out: &mut [u8]) -> usize
    requires { SoundBook b.now × (report_size ≤ length out.old) }
    ensures { Written out.old (report_of b.now) result out.new }
{
    let figures = figures::compute(b.header.held, b.sums);
    book_report::put_report(out, figures)
}

// A book is closed: its report is written to the lent buffer, and its length told.
pub fn close(b: &Book, out: &mut [u8]) -> Result<usize, Refusal>
    requires { SoundBook b.now }
    ensures equation { closed_by result ≡ closing b.now (length out.old) }
    ensures bytes { out.new ≡ closed b.now out.old }
{
    limits::may_close(b, REPORT_SIZE, out.len())?;
    Ok(put_report(b, out))
}

// A book's table of cells is written to the lent buffer: the second closing.
pub fn close_cells(b: &Book, cells: &Cells, out: &mut [u8]) -> Result<usize, Refusal>
    ensures equation { closed_by result ≡ closing_cells b.now cells.now (length out.old) }
    ensures bytes { out.new ≡ closed_cells b.now cells.now out.old }
{
    limits::may_close(b, CELLS_SIZE, out.len())?;
    Ok(cell_report::put_cells(out, cells))
}
