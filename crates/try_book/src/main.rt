// Makes the calls of standard input and prints what each answers. Each line is a call on the book that the last one gave back:
// `o` and a header line opens a book, `n` and a list of numbers makes them the sheet of factors under which `s` and a header line opens
// one, `f` and a line feeds it, `c` and a number closes it into so many bytes of a buffer of 640, `t` and a number closes its table of
// cells into so many of a buffer of 8,320. A closing prints the whole buffer, in which every byte was `.` before. `k` keeps a copy of the
// book, that of a refused opening at first, and answers nothing; `x` exchanges the book and the copy kept, which has no marks, and answers
// nothing; `j` joins the copy kept and the book, which becomes what joining gave.
#![tactic(auto)]

ghost use Rattle.std.specs.Prelude.{◌≡◌, ◌≤◌, length};
ghost use Rattle.book_model.specs.Calls.{SoundBook, Sound};
ghost use Rattle.book_model.specs.JoiningLaws.{without_marks};

use book_model::{Book, OpenBook};
use line_bytes::newlines::line_end;
use line_forms::Refusal;
use sheet_file::Room;
use std::io::Print;
use std::mem::swap;

// The calls are read at once, at most so many bytes.
const INPUT: usize = 327680;

// The buffers of the two closings.
const REPORT: usize = 640;

const TABLE: usize = 8320;

// The number of a refusal, 0 for none.
fn number_in<T: Copy>(answer: Result<T, Refusal>) -> u64 {
    match answer {
        Ok(_) => 0,
        Err(refusal) => refusal.number(),
    }
}

fn print_answer(out: &impl Print, call: &str, answer: Result<(), Refusal>) {
    let refusal = number_in(answer);
    let _ = println!(out; "{call} {refusal}");
}

// How many numbers the text has, put into the room; none where it is no list of numbers.
fn numbers_of(text: &[u8], room: &mut Room) -> usize
    ensures { result ≤ length room.new }
{
    sheet_file::numbers_in(text, room).unwrap_or(0)
}

// Under the sheet of these numbers.
fn open_sheet(open_book: &mut OpenBook, line: &[u8], numbers: &[u8]) -> Result<(), Refusal>
    ensures { Sound open_book.new }
{
    let mut room = [0u64; sheet_file::MOST];
    let count = numbers_of(numbers, &mut room);
    book::open_sheet(open_book, line, &room[0..count])
}

// How many numbers the sheet has.
fn tell_numbers(out: &impl Print, text: &[u8]) {
    let mut room = [0u64; sheet_file::MOST];
    let _ = match sheet_file::numbers_in(text, &mut room) {
        Some(count) => println!(out; "n {count}"),
        None => println!(out; "n bad"),
    };
}

// The number that the digits write, where it is at most so many, else that.
fn size_of(digits: &[u8], most: usize) -> usize
    ensures { result ≤ most }
{
    let mut cases = cases::Cases { rest: digits };
    cases.number().min(most as u64) as usize
}

fn print_closing(out: &impl Print, call: &str, closed: Result<usize, Refusal>, buffer: &[u8]) {
    let refusal = number_in(closed);
    let length = closed.unwrap_or(0);
    let _ = println!(out; "{call} {refusal} {length}");
    cases::put(out, buffer);
    cases::put(out, b"\n");
}

fn close(out: &impl Print, b: &Book, digits: &[u8])
    requires { SoundBook b.now }
{
    let mut buffer = [b'.'; REPORT];
    let size = size_of(digits, REPORT);
    let closed = book::close(b, &mut buffer[0..size]);
    print_closing(out, "c", closed, &buffer);
}

fn close_cells(out: &impl Print, open_book: &OpenBook, digits: &[u8]) {
    let mut buffer = [b'.'; TABLE];
    let size = size_of(digits, TABLE);
    let closed = book::close_cells(&open_book.book, &open_book.cells, &mut buffer[0..size]);
    print_closing(out, "t", closed, &buffer);
}

// Copies the book, of which marks do not count.
fn keep(open_book: &OpenBook, kept: &mut OpenBook)
    ensures { without_marks kept.new ≡ without_marks open_book.now }
{
    book::copy_unmarked(kept, open_book);
}

// Exchanges the book and the copy kept, of which marks do not count.
fn exchange(open_book: &mut OpenBook, kept: &mut OpenBook)
    ensures book { open_book.new ≡ without_marks kept.old }
    ensures kept { without_marks kept.new ≡ without_marks open_book.old }
{
    swap(&mut open_book.book, &mut kept.book);
    swap(&mut open_book.rates, &mut kept.rates);
    swap(&mut open_book.cells, &mut kept.cells);
    swap(&mut open_book.index, &mut kept.index);
    marks::clear(&mut open_book.marks);
}

// Joins the copy kept and the book, which becomes what joining gave: that of a second book, lent for it, which takes the book's place. What
// joining is to write is of ones before, so that what is not written shows.
fn join(open_book: &mut OpenBook, kept: &OpenBook, second: &mut OpenBook) -> Result<(), Refusal>
    requires { Sound open_book.old × Sound (without_marks kept.now) }
    ensures { Sound open_book.new }
{
    book::copy_unmarked(second, open_book);
    open_book.rates = [1; loan_charge::credit::RATES];
    open_book.cells = [1; cell_report::PLACES];
    open_book.index = [1; house_index::PLACES];
    joining::join(open_book, kept, second)
}

// One call on the book or on the copy kept; `numbers` are the sheet's.
fn call(
    out: &impl Print,
    open_book: &mut OpenBook,
    kept: &mut OpenBook,
    second: &mut OpenBook,
    numbers: &[u8],
    kind: u8,
    rest: &[u8],
)
    requires { Sound open_book.old × Sound (without_marks kept.old) }
    ensures { Sound open_book.new × Sound (without_marks kept.new) }
{
    match kind {
        b'o' => print_answer(out, "o", book::open(open_book, rest)),
        b's' => print_answer(out, "s", open_sheet(open_book, rest, numbers)),
        b'f' => print_answer(out, "f", book::feed(open_book, rest)),
        b't' => close_cells(out, open_book, rest),
        b'k' => keep(open_book, kept),
        b'x' => exchange(open_book, kept),
        b'j' => print_answer(out, "j", join(open_book, kept, second)),
        _ => close(out, &open_book.book, rest),
    }
}

// The calls of the input, on the book of a refused opening, with a copy of it kept and an empty sheet at first. An empty line is none.
fn call_all(out: &impl Print, input: &[u8]) {
    let mut open_book = book::unopened();
    let mut kept = open_book;
    let mut second = open_book;
    let mut numbers = &input[0..0];
    // Kept: a position and no `for` over `split`, since the goal for that iterator, where a loop has an invariant, has no type that the check accepts.
    let mut at = 0;
    while at < input.len() {
        let end = line_end(input, at);
        match input[at..end].split_first() {
            None => {}
            Some((b'n', rest)) => {
                numbers = rest;
                tell_numbers(out, rest);
            }
            Some((kind, rest)) => call(
                out,
                &mut open_book,
                &mut kept,
                &mut second,
                numbers,
                *kind,
                rest,
            ),
        }
        at = end + 1;
    }
}

fn main(rt: HostRuntime) {
    let mut buf = [0u8; INPUT];
    let n = cases::read_input(&mut rt.stdin(), &mut buf).unwrap_or(0);
    call_all(&rt, &buf[0..n]);
}
