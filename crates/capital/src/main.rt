// The mortgage capital book: reads a book from standard input and prints its report, with the word `cells` also its table of loans by score
// and loan-to-value, or its refusal. With the words `sheet FILE` the book is under the credit factors of that file. With the words `join FILE ..`,
// after these, it reads the books of those files, and prints the report of them joined.
#![tactic(auto)]

ghost use Rattle.std.specs.Prelude.{◌≡◌, ◌+◌, ◌-◌, ◌^◌, ◌≤◌, ◌<◌, false, length, is_none, IfSome, IfOk, OnOk};
ghost use Rattle.std.specs.Result.{result_unwrap_or};
ghost use Rattle.loan_charge.specs.Tables.{exponentials};
ghost use Rattle.book_model.specs.Calls.{lacks_lines, Sound};
ghost use Rattle.book_model.specs.JoiningLaws.{without_marks};
ghost use Rattle.driver.specs.Reading.{stage_at, reading_of, AtStart, Running};
ghost use Rattle.capital.specs.Files.{FileRead, NextRead, AnsweredOthers, AnsweredFiles, AnsweredWords, step_of};
ghost use Rattle.capital.specs.Reads.{ReadsOn, Reached, EndsReading, Answered, SheetRead, output_of};
ghost use Rattle.sheet_file.specs.NumberList.{numbers_of};
ghost use Rattle.capital.specs.Arguments.{with_word, FilesNamed};

use book_model::OpenBook;
use driver::{Progress, Run};
use loan_charge::charge::Exponentials;
use sheet_file::Room;
use std::env::{Env, FillError};
use std::fs::{File, OpenOptions};
use std::io;
use std::io::{Read, Write};
use std::rt::Files;

// The reads are counted, since nothing says that the input ends: no run uses up so many.
const MOST_READS: usize = 1099511627776;

// Room for one read.
const READ: usize = 65536;

// Room for a report, 512 bytes, and for the table of cells, 8,192.
const OUT: usize = 8704;

// Room for the name of a file: the system knows no longer one.
const NAME: usize = 4096;

// Room for the system's words for an error.
const WORDS: usize = 256;

// A read failed.
#[derive(Clone, Copy)]
struct ReadFailed;

// One read, and how many bytes it got.
fn read_once(
    input: &mut impl Read,
    run: &mut Run,
    open_book: &mut OpenBook,
    exps: &Exponentials,
    sheet: &[u64],
    buf: &mut [u8],
) -> Result<usize, ReadFailed>
    requires { Running run.old open_book.old × (run.old.read + length buf.old ≤ 2 ^ 62) × (exps.now ≡ exponentials) }
    ensures reading { ReadsOn (reading_of run.old sheet.now open_book.old)
        (reading_of run.new sheet.now open_book.new) (result_unwrap_or result 0) buf.new }
    ensures running { Running run.new open_book.new × (run.new.read ≡ run.old.read + result_unwrap_or result 0) }
{
    let Ok(n) = input.read(buf) else {
        return Err(ReadFailed);
    };
    driver::step(run, open_book, exps, sheet, &buf[0..n]);
    Ok(n)
}

// Reads an input to its end, and tells how many bytes the last read got. Nothing more is read after a refusal, nor of a line that is already
// too long.
fn read_all(
    input: &mut impl Read,
    run: &mut Run,
    open_book: &mut OpenBook,
    exps: &Exponentials,
    sheet: &[u64],
    buf: &mut [u8; READ],
) -> Result<usize, ReadFailed>
    requires { AtStart run.old open_book.old × Running run.old open_book.old × (run.old.read ≡ 0) × (exps.now ≡ exponentials) }
    ensures reached { Reached sheet.now (reading_of run.new sheet.now open_book.new) run.new.read }
    ensures running { Running run.new open_book.new × (run.new.read ≤ 2 ^ 62) }
    ensures ends { IfOk result (λ n. EndsReading (reading_of run.new sheet.now open_book.new) n false false) }
{
    for _ in 0..MOST_READS {
        let n = read_once(input, run, open_book, exps, sheet, buf)?;
        let more = (0 < n)
            & run.progress.answer.is_ok()
            & (run.tail.len() <= line_forms::LONGEST_LINE);
        if !more {
            return Ok(n);
        }
    }
    Err(ReadFailed)
}

// Reads a book to its end, under a sheet of factors, and leaves in the buffer what is to be printed of it, with the table of cells where it is
// asked for. The result is how many bytes that is. It is no part of its caller's code, as `answer_files` is none: the stack has room for the
// books of the one or of the other.
#[inline(never)]
fn answer(
    rt: &HostRuntime,
    asked: bool,
    sheet: &[u64],
    out: &mut [u8; OUT],
) -> Result<usize, ReadFailed>
    ensures { Answered asked sheet.now out.old (output_of result) out.new }
{
    let exps = loan_charge::charge::table();
    let mut open_book = book::unopened();
    let mut run = driver::start(&mut open_book);
    let mut buf = [0u8; READ];
    read_all(
        &mut rt.stdin(),
        &mut run,
        &mut open_book,
        &exps,
        sheet,
        &mut buf,
    )?;
    Ok(driver::finish(run, &mut open_book, &exps, sheet, asked, out))
}

// The bytes of this argument, put at the start of the buffer: none where there is no such argument, or one with more bytes.
fn argument(rt: &HostRuntime, at: usize, buf: &mut [u8]) -> usize
    ensures { result ≤ length buf.new }
{
    rt.arg(at, buf).unwrap_or(0)
}

// How many arguments the program has, its name among them.
fn count_arguments(rt: &HostRuntime) -> usize {
    let mut start = [0u8; 1];
    for i in 0..usize::MAX {
        if let Err(FillError::NotPresent) = rt.arg(i, &mut start) {
            return i;
        }
    }
    usize::MAX
}

// Opens the file that is named by this argument.
fn open_argument(rt: &HostRuntime, file: usize) -> io::Result<File> {
    let mut name = [0u8; NAME];
    let n = argument(rt, file, &mut name);
    match std::str::from_utf8(&name[0..n]) {
        Ok(path) => {
            let mut how = OpenOptions::new();
            how.read(true);
            rt.open_file(&how, path)
        }
        Err(_) => Err(io::Error::other("its name is no text in UTF-8")),
    }
}

// The same; where it cannot be opened, it is said why, after these words.
fn open(rt: &HostRuntime, file: usize, what: &str) -> Option<File> {
    match open_argument(rt, file) {
        Ok(file) => Some(file),
        Err(error) => {
            tell(rt, what, error);
            None
        }
    }
}

// Says what failed and why.
fn tell(rt: &HostRuntime, what: &str, error: io::Error) {
    let mut buf = [0u8; WORDS];
    let n = put_error(error, &mut buf);
    let why = reason(&buf[0..n]);
    let _ = eprintln!(rt; "{what}: {why}");
}

// Writes the error to the buffer's start, as far as there is room.
fn put_error(error: io::Error, buf: &mut [u8]) -> usize
    ensures { result ≤ length buf.new }
{
    let size = buf.len();
    let mut room = &mut buf[..];
    let _ = write!(room, "{error}");
    size.saturating_sub(room.len())
}

// The system's words for an error, without its number, which std adds to them.
fn reason(error: &[u8]) -> &str {
    let text = std::str::from_utf8(error).unwrap_or("");
    match text.split_once(" (os error ") {
        Some((words, _)) => words,
        None => text,
    }
}

// Reads a book to its end.
fn read_book(
    input: &mut impl Read,
    open_book: &mut OpenBook,
    exps: &Exponentials,
    sheet: &[u64],
    buf: &mut [u8; READ],
) -> Result<Progress, ReadFailed>
    requires { exps.now ≡ exponentials }
    ensures read { IfOk result (λ p. FileRead sheet.now (stage_at p sheet.now open_book.new)) }
    ensures sound { OnOk result (Sound open_book.new) }
{
    let mut run = driver::start(open_book);
    read_all(input, &mut run, open_book, exps, sheet, buf)?;
    Ok(driver::end_input(run, open_book, exps, sheet))
}

// Reads the book of the file that is named by this argument to its end. Of a file that cannot be opened nothing is read.
fn read_file(
    rt: &HostRuntime,
    file: usize,
    open_book: &mut OpenBook,
    exps: &Exponentials,
    sheet: &[u64],
    buf: &mut [u8; READ],
) -> Result<Progress, ReadFailed>
    requires { exps.now ≡ exponentials }
    ensures read { IfOk result (λ p. FileRead sheet.now (stage_at p sheet.now open_book.new)) }
    ensures sound { OnOk result (Sound open_book.new) }
{
    let Some(mut book) = open(rt, file, "capital: opening a book") else {
        return Err(ReadFailed);
    };
    read_book(&mut book, open_book, exps, sheet, buf)
}

// The book of one more file is joined to that of those before it, by way of two books that are lent so that none is made for each file. Where
// something is to be printed, the result is how many bytes.
fn join_next(
    rt: &HostRuntime,
    total: &mut OpenBook,
    own: &mut OpenBook,
    joined: &mut OpenBook,
    file: usize,
    number: u64,
    exps: &Exponentials,
    sheet: &[u64],
    buf: &mut [u8; READ],
    asked: bool,
    out: &mut [u8; OUT],
) -> Result<Option<usize>, ReadFailed>
    requires { Sound (without_marks total.old) × (exps.now ≡ exponentials) }
    ensures { NextRead asked sheet.now (without_marks total.old) number (step_of result)
        (without_marks total.new) out.old out.new }
{
    let p = read_file(rt, file, own, exps, sheet, buf)?;
    let printed = regions::join_file(joined, total, p, own, number, asked, out);
    book::copy_unmarked(total, joined);
    Ok(printed)
}

// The books of files from this argument on are joined in turn to that of the first.
fn join_all(
    rt: &HostRuntime,
    total: &mut OpenBook,
    from: usize,
    arguments: usize,
    exps: &Exponentials,
    sheet: &[u64],
    buf: &mut [u8; READ],
    asked: bool,
    out: &mut [u8; OUT],
) -> Result<usize, ReadFailed>
    requires { Sound (without_marks total.old) × (lacks_lines total.old.book.header total.old.book.sums.counts ≡ false)
        × (2 ≤ from) × (from ≤ arguments) × (exps.now ≡ exponentials) }
    ensures { AnsweredOthers asked sheet.now (without_marks total.old)
        (arguments - from) out.old (output_of result) out.new }
{
    let mut own = *total;
    let mut joined = *total;
    for file in from..arguments {
        let number = (file - from + 2) as u64;
        if let Some(count) = join_next(
            rt,
            total,
            &mut own,
            &mut joined,
            file,
            number,
            exps,
            sheet,
            buf,
            asked,
            out,
        )? {
            return Ok(count);
        }
    }
    Ok(printing::put_answer(Ok(()), 2, total, asked, out))
}

// Reads the books of the files from this argument on, joins them from the first on, and leaves in the buffer what is to be printed of them.
#[inline(never)]
fn answer_files(
    rt: &HostRuntime,
    from: usize,
    arguments: usize,
    asked: bool,
    sheet: &[u64],
    out: &mut [u8; OUT],
) -> Result<usize, ReadFailed>
    requires { (1 ≤ from) × (from < arguments) }
    ensures { AnsweredFiles asked sheet.now (arguments - from) out.old (output_of result) out.new }
{
    let exps = loan_charge::charge::table();
    let mut first = book::unopened();
    let mut buf = [0u8; READ];
    let p = read_file(rt, from, &mut first, &exps, sheet, &mut buf)?;
    if !regions::reports(p, &first) {
        return Ok(printing::put_answer(p.answer, p.number, &first, asked, out));
    }
    join_all(
        rt,
        &mut first,
        from + 1,
        arguments,
        &exps,
        sheet,
        &mut buf,
        asked,
        out,
    )
}

// What is asked for by the words, where the program has so many arguments: of standard input, or of the files that they name.
fn answer_words(
    rt: &HostRuntime,
    words: Words,
    arguments: usize,
    sheet: &[u64],
    out: &mut [u8; OUT],
) -> Result<usize, ReadFailed>
    requires { FilesNamed words arguments }
    ensures { AnsweredWords words arguments sheet.now out.old (output_of result) out.new }
{
    match words.files {
        None => answer(rt, words.cells, sheet, out),
        Some(from) => answer_files(rt, from, arguments, words.cells, sheet, out),
    }
}

// Says it on standard error. Where that cannot be written either, there is nobody to tell.
fn say(rt: &HostRuntime, sentence: &str) {
    let _ = rt.eprintln(sentence);
}

// Prints it.
fn print(rt: &HostRuntime, words: Words, arguments: usize, sheet: &[u64])
    requires { FilesNamed words arguments }
{
    let mut out = [0u8; OUT];
    match answer_words(rt, words, arguments, sheet, &mut out) {
        Ok(n) => {
            if rt.write_all(&out[0..n]).is_err() {
                say(rt, "capital: writing standard output failed");
            }
        }
        Err(ReadFailed) => {
            if words.files.is_none() {
                say(rt, "capital: reading standard input failed");
            } else {
                say(rt, "capital: reading a book failed");
            }
        }
    }
}

// Reads until the buffer is full or the input ends; nothing where a read failed.
// Kept: std's methods that read on grow a Vec or fail at an early end, and the program stands on no crate of the tests, which has this loop too.
fn fill(input: &mut impl Read, buf: &mut [u8]) -> Option<usize>
    ensures { IfSome result (λ n. n ≤ length buf.new) }
{
    let mut done = 0;
    while done < buf.len() {
        let Ok(n) = input.read(&mut buf[done..]) else {
            return None;
        };
        if n == 0 {
            break;
        }
        done += n;
    }
    Some(done)
}

// Reads an input to its end; nothing where a read failed, or where it is longer than the buffer.
fn read_whole(input: &mut impl Read, buf: &mut [u8]) -> Option<usize>
    ensures { IfSome result (λ n. n ≤ length buf.new) }
{
    let n = fill(input, buf)?;
    let mut next = [0u8; 1];
    match input.read(&mut next) {
        Ok(0) => Some(n),
        _ => None,
    }
}

// How many numbers a file of credit factors has, that is named by this argument: nothing where it could not be read to its end, or is no list of
// numbers; it is said why.
fn read_sheet(rt: &HostRuntime, file: usize, out: &mut Room) -> Option<usize>
    ensures read { SheetRead (numbers_of result) out.new }
    ensures few { IfSome result (λ n. n ≤ length out.new) }
{
    let mut sheet = open(rt, file, "capital: opening the sheet")?;
    let mut buf = [0u8; READ];
    let Some(n) = read_whole(&mut sheet, &mut buf) else {
        say(
            rt,
            "capital: the sheet could not be read, or is too long to be one",
        );
        return None;
    };
    let count = sheet_file::numbers_in(&buf[0..n], out);
    if count.is_none() {
        say(
            rt,
            "capital: the sheet is no list of whole numbers with one space or line end after each",
        );
    }
    count
}

// The same under the sheet of the file that is named by this argument.
fn print_under(rt: &HostRuntime, file: usize, words: Words, arguments: usize)
    requires { FilesNamed words arguments }
{
    let mut room = [0u64; sheet_file::MOST];
    if let Some(count) = read_sheet(rt, file, &mut room) {
        print(rt, words, arguments, &room[0..count]);
    }
}

// What the words after the program's name ask for: `next` is the first that is not yet understood, `sheet` the one that names a sheet and
// `files` the first that names a book to be joined.
#[derive(Clone, Copy)]
struct Words {
    cells: bool,
    sheet: Option<usize>,
    files: Option<usize>,
    next: usize,
}

// One word more, `more` where another follows it. Each is understood once, `sheet` with the word after it, and `join` as the last, with all that follow.
fn understood(words: Words, word: &[u8], more: bool) -> Words
    requires { words.next < 2 ^ 32 }
    ensures { result ≡ with_word words word.now more }
{
    if words.files.is_some() {
        return words;
    }
    if line_fields::same(word, b"cells") & !words.cells {
        return Words {
            cells: true,
            next: words.next + 1,
            ..words
        };
    }
    if line_fields::same(word, b"sheet") & words.sheet.is_none() & more {
        return Words {
            sheet: Some(words.next + 1),
            next: words.next + 2,
            ..words
        };
    }
    if line_fields::same(word, b"join") & more {
        return Words {
            files: Some(words.next + 1),
            next: words.next + 1,
            ..words
        };
    }
    words
}

// The next word is read, where the program has so many arguments. One of more than 16 bytes is none that is understood.
fn read_word(rt: &HostRuntime, words: Words, arguments: usize) -> Words
    requires { (words.next < 2 ^ 32) × FilesNamed words arguments }
    ensures { (result.next ≤ words.next + 2) × FilesNamed result arguments }
{
    let at = words.next;
    if arguments <= at {
        return words;
    }
    let mut word = [0u8; 16];
    let n = argument(rt, at, &mut word);
    understood(words, &word[0..n], at + 1 < arguments)
}

fn main(rt: HostRuntime) {
    let arguments = count_arguments(&rt);
    let none = Words {
        cells: false,
        sheet: None,
        files: None,
        next: 1,
    };
    let first = read_word(&rt, none, arguments);
    let second = read_word(&rt, first, arguments);
    let words = read_word(&rt, second, arguments);
    if words.files.is_none() & (words.next < arguments) {
        say(
            &rt,
            "capital: the words that can follow are cells, for the table of loans, sheet FILE, for credit factors of your own, and join FILE .., for books to be joined",
        );
        return;
    }
    match words.sheet {
        Some(file) => print_under(&rt, file, words, arguments),
        None => print(&rt, words, arguments, &sheet::built_in()),
    }
}
