// Books of regions joined (02, L8): files that are whole books, one after the other.
#![tactic(auto)]

ghost use Rattle.std.specs.Prelude.{◌≡◌, [], ◌+◌, ◌≤◌, is_some, unwrap_or, length};
ghost use Rattle.book_model.specs.Calls.{report_size, cells_size, Sound};
ghost use Rattle.book_model.specs.JoiningLaws.{without_marks};
ghost use Rattle.driver.specs.Reading.{stage_at};
ghost use Rattle.regions.specs.Regions.{reports};
ghost use Rattle.regions.specs.NextFile.{NextFile};

use book_model::OpenBook;
use driver::Progress;

// Whether a report is printed of a file that ended so.
pub fn reports(p: Progress, open_book: &OpenBook) -> bool
    ensures { result ≡ reports (stage_at p [] open_book.now) }
{
    p.answer.is_ok() & (p.number != 1) & !limits::is_short(&open_book.book)
}

// One more file, which ended so with a book of its own, is joined to the book of those before it, into a third. Marks are not looked at. Where
// something is printed, and so no further file is read, its length comes back.
pub fn join_file(
    joined: &mut OpenBook,
    before: &OpenBook,
    p: Progress,
    own: &OpenBook,
    file: u64,
    asked: bool,
    out: &mut [u8],
) -> Option<usize>
    requires { Sound (without_marks before.now) × Sound (without_marks own.now) × (report_size + cells_size ≤ length out.old) }
    ensures { NextFile asked (without_marks before.now) file (stage_at p [] (without_marks own.now)) (is_some result) (unwrap_or result 0) joined.new
        out.old out.new }
{
    if !reports(p, own) {
        return Some(printing::put_answer(p.answer, p.number, own, asked, out));
    }
    if let Err(refusal) = joining::join(joined, before, own) {
        return Some(report::put_refusal(out, refusal.number(), file));
    }
    None
}
