// The program's work: lines of an input that comes in parts, and what is printed of it. Only the reads and the write are left to the program.
#![tactic(auto)]

ghost use Rattle.std.specs.Prelude.{◌≡◌, true, [], ◌+◌, ◌^◌, ◌≤◌, ◌<◌, eqb, length, take, drop};
ghost use Rattle.exact.specs.Choice.{pick};
ghost use Rattle.loan_charge.specs.Tables.{exponentials};
ghost use Rattle.report.specs.Line.{Written};
ghost use Rattle.book_model.specs.Calls.{answered, opening, feeding, report_size, cells_size, Sound};
ghost use Rattle.line_bytes.specs.LineBytes.{unbroken};
ghost use Rattle.driver.specs.Reading.{with_line, with_bytes, stage_at, reading_of, AtStart, Running};
ghost use Rattle.driver.specs.Printed.{printed_for, ended, PrintsWhole};

use book_model::OpenBook;
use line_bytes::Tail;
use line_forms::Refusal;
use loan_charge::charge::Exponentials;

// What the lines read so far gave: the answer to the last of them, and the number of the line to be read or of the refused one.
#[derive(Clone, Copy)]
pub struct Progress {
    pub answer: Result<(), Refusal>,
    pub number: u64,
}

// A run between two parts of the input: `tail` holds the bytes of a line not yet ended, and `read` counts all bytes read so far.
#[derive(Clone, Copy)]
pub struct Run {
    pub progress: Progress,
    pub tail: Tail,
    pub read: usize,
}

// Before any byte is read: what stands is the value of a refused opening.
pub fn start(open_book: &mut OpenBook) -> Run
    ensures equation { AtStart result open_book.new }
    ensures running { Running result open_book.new }
    ensures none { result.read ≡ 0 }
{
    book::reset(open_book);
    Run {
        progress: Progress {
            answer: Ok(()),
            number: 1,
        },
        tail: Tail::new(),
        read: 0,
    }
}

// The first line opens a book, any other is fed to it.
fn answer_to(
    number: u64,
    open_book: &mut OpenBook,
    exps: &Exponentials,
    sheet: &[u64],
    line: &[u8],
) -> Result<(), Refusal>
    requires { Sound open_book.old × (exps.now ≡ exponentials) }
    ensures { answered result open_book.new ≡ pick (eqb number 1) (opening sheet.now line.now) (feeding open_book.old line.now) }
{
    if number == 1 {
        book::open_sheet(open_book, line, sheet)
    } else {
        book::feed_with(open_book, exps, line)
    }
}

// A whole line is read.
fn end_line(
    p: &mut Progress,
    open_book: &mut OpenBook,
    exps: &Exponentials,
    sheet: &[u64],
    line: &[u8],
)
    requires { Sound open_book.old × (p.old.number < 2 ^ 63) × (exps.now ≡ exponentials) }
    ensures equation { stage_at p.new sheet.now open_book.new ≡ with_line (stage_at p.old sheet.now open_book.old) line.now }
    ensures sound { Sound open_book.new }
    ensures number { p.new.number ≤ p.old.number + 1 }
{
    if p.answer.is_err() {
        return;
    }
    p.answer = answer_to(p.number, open_book, exps, sheet, line);
    if p.answer.is_ok() {
        p.number += 1;
    }
}

// Every line that ends in the bytes is read. The result is where the rest of them begins.
// Kept: no `split`, which does not tell whether the last part was ended, nor where it begins: no plainer.
fn lines(
    p: &mut Progress,
    open_book: &mut OpenBook,
    exps: &Exponentials,
    sheet: &[u64],
    bytes: &[u8],
) -> usize
    requires { Sound open_book.old × (p.old.number + length bytes.now < 2 ^ 63) × (exps.now ≡ exponentials) }
    ensures equation { record {
      stage = stage_at p.new sheet.now open_book.new;
      tail =
          [];
    } ≡
        with_bytes (record {
          stage = stage_at p.old sheet.now open_book.old;
          tail = [];
        })
        (take result bytes.now) }
    ensures rest { (result ≤ length bytes.now) × (unbroken (drop result bytes.now) ≡ true) }
    ensures sound { Sound open_book.new }
    ensures number { p.new.number ≤ p.old.number + result }
{
    let size = bytes.len();
    let mut i = 0;
    while i < size {
        let end = line_bytes::newlines::line_end(bytes, i);
        if size <= end {
            return i;
        }
        end_line(p, open_book, exps, sheet, &bytes[i..end]);
        i = end + 1;
    }
    i
}

// The line that is held is ended, and read.
fn end_held(run: &mut Run, open_book: &mut OpenBook, exps: &Exponentials, sheet: &[u64])
    requires { Running run.old open_book.old × (run.old.progress.number + 242 < 2 ^ 63) × (exps.now ≡ exponentials) }
    ensures equation { stage_at run.new.progress sheet.now open_book.new ≡
        with_line (stage_at run.old.progress sheet.now open_book.old)
        run.old.tail }
    ensures sound { Sound open_book.new }
    ensures number { run.new.progress.number ≤ run.old.progress.number + 1 }
    ensures rest { (run.new.tail ≡ []) × (run.new.read ≡ run.old.read) }
{
    lines(&mut run.progress, open_book, exps, sheet, run.tail.ended());
    run.tail.clear();
}

// Bytes are read from a place where a line begins; `run.read` counts them already.
fn read_lines(
    run: &mut Run,
    open_book: &mut OpenBook,
    exps: &Exponentials,
    sheet: &[u64],
    bytes: &[u8],
)
    requires { Sound open_book.old × (run.old.progress.number + length bytes.now ≤ 1 + run.old.read) × (run.old.read ≤ 2 ^ 62)
        × (run.old.tail ≡ []) × (exps.now ≡ exponentials) }
    ensures equation { reading_of run.new sheet.now open_book.new ≡
        with_bytes (record {
          stage = stage_at run.old.progress sheet.now open_book.old;
          tail =
              [];
        })
        bytes.now }
    ensures running { Running run.new open_book.new }
    ensures read { run.new.read ≡ run.old.read }
{
    let rest = lines(&mut run.progress, open_book, exps, sheet, bytes);
    run.tail.hold(&bytes[rest..]);
}

// A part of the input is read.
pub fn step(
    run: &mut Run,
    open_book: &mut OpenBook,
    exps: &Exponentials,
    sheet: &[u64],
    chunk: &[u8],
)
    requires { Running run.old open_book.old × (run.old.read + length chunk.now ≤ 2 ^ 62) × (exps.now ≡ exponentials) }
    ensures equation { reading_of run.new sheet.now open_book.new ≡
        with_bytes (reading_of run.old sheet.now open_book.old)
        chunk.now }
    ensures running { Running run.new open_book.new }
    ensures read { run.new.read ≡ run.old.read + length chunk.now }
{
    run.read += chunk.len();
    if run.tail.is_empty() {
        return read_lines(run, open_book, exps, sheet, chunk);
    }
    let end = line_bytes::newlines::line_end(chunk, 0);
    run.tail.hold(&chunk[..end]);
    if chunk.len() <= end {
        return;
    }
    end_held(run, open_book, exps, sheet);
    read_lines(run, open_book, exps, sheet, &chunk[end + 1..]);
}

// The end of the input: a line that is held is ended, and read.
pub fn end_input(run: Run, open_book: &mut OpenBook, exps: &Exponentials, sheet: &[u64]) -> Progress
    requires { Running run open_book.old × (run.read ≤ 2 ^ 62) × (exps.now ≡ exponentials) }
    ensures equation { stage_at result sheet.now open_book.new ≡ ended (reading_of run sheet.now open_book.old) }
    ensures sound { Sound open_book.new }
{
    if run.tail.is_empty() {
        return run.progress;
    }
    let mut last = run;
    end_held(&mut last, open_book, exps, sheet);
    last.progress
}

// The end of the input: what is to be printed is written to the lent buffer, with the table of cells where it is asked for.
pub fn finish(
    run: Run,
    open_book: &mut OpenBook,
    exps: &Exponentials,
    sheet: &[u64],
    asked: bool,
    out: &mut [u8],
) -> usize
    requires { Running run open_book.old × (run.read ≤ 2 ^ 62) × (exps.now ≡ exponentials) × (report_size + cells_size ≤ length out.old) }
    ensures equation { Written out.old (printed_for asked (ended (reading_of run sheet.now open_book.old))) result out.new }
    ensures whole { PrintsWhole asked (reading_of run sheet.now open_book.old) out.old result out.new }
{
    let last = end_input(run, open_book, exps, sheet);
    printing::put_answer(last.answer, last.number, open_book, asked, out)
}
