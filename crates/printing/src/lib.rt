// What is printed where the lines end: the report, with the table of cells where it is asked for, or a refusal.
#![tactic(auto)]

ghost use Rattle.std.specs.Prelude.{◌≡◌, false, ◌+◌, ◌*◌, ◌≤◌, length};
ghost use Rattle.report.specs.Line.{Written};
ghost use Rattle.book_model.specs.Calls.{told, lacks_lines, report_size, cells_size, cells_text_of, SoundBook};
ghost use Rattle.book_model.specs.Cells.{CellsBounded};
ghost use Rattle.printing.specs.AtEnd.{printed_at_end, printed_with};

use book_model::OpenBook;
use line_forms::Refusal;

// Writes the table of cells of a book that lacks no lines, so that its closing is not refused.
fn put_table(open_book: &OpenBook, out: &mut [u8]) -> usize
    requires { (lacks_lines open_book.now.book.header open_book.now.book.sums.counts ≡ false) × (cells_size ≤ length out.old) }
    ensures { Written out.old (cells_text_of open_book.now.cells) result out.new }
{
    book::close_cells(&open_book.book, &open_book.cells, out).unwrap_or(0)
}

// Closes a book, of which the line after the last would have this number: writes its report, and the table of cells where it is asked for.
fn put_closing(open_book: &OpenBook, number: u64, asked: bool, out: &mut [u8]) -> usize
    requires { SoundBook open_book.now.book × CellsBounded open_book.now.cells (4 * open_book.now.book.sums.counts.loans)
        × (report_size + cells_size ≤ length out.old) }
    ensures { Written out.old (printed_at_end asked open_book.now.book open_book.now.cells number) result out.new }
{
    match book::close(&open_book.book, out) {
        Err(refusal) => report::put_refusal(out, refusal.number(), number),
        Ok(at) => {
            if asked {
                return at + put_table(open_book, &mut out[at..]);
            }
            at
        }
    }
}

// Writes what is printed where the lines end, from the answer to the last line read, the number of the line to be read or of the refused
// one, and the book.
pub fn put_answer(
    answer: Result<(), Refusal>,
    number: u64,
    open_book: &OpenBook,
    asked: bool,
    out: &mut [u8],
) -> usize
    requires { SoundBook open_book.now.book × CellsBounded open_book.now.cells (4 * open_book.now.book.sums.counts.loans)
        × (report_size + cells_size ≤ length out.old) }
    ensures { Written out.old (printed_with asked (told answer) number open_book.now.book open_book.now.cells) result out.new }
{
    if let Err(refusal) = answer {
        return report::put_refusal(out, refusal.number(), number);
    }
    if number == 1 {
        return report::put_refusal(out, Refusal::NoForm.number(), 1);
    }
    put_closing(open_book, number, asked, out)
}
