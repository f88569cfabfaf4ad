// The limits of a book: the header's counts of loans, of loans without a score and of loans with a fresh one (5 and 6), the limit on other
// lines (8), and the room for what a closing writes (9).
#![tactic(auto)]

ghost use Rattle.std.specs.Prelude.{◌≡◌, leb};
ghost use Rattle.book_model.specs.Accepted.{most_other, loan_beyond_lem};
ghost use Rattle.book_model.specs.Calls.{told, counts_of, lacks_lines, closing_refusal_lem, SoundBook};

use book_model::Book;
use figures::Counts;
use line_forms::{Header, Refusal};
use loan_charge::Score;

// At most so many lines of a book are not loans.
pub const MOST_OTHER: u64 = 100000;

// Whether so many lines that are not loans are taken that no more are: index lines count among them.
pub fn is_full(b: &Book) -> bool
    requires { SoundBook b.now }
    ensures { result ≡ leb most_other (counts_of b.now).other }
{
    MOST_OTHER <= b.sums.counts.other + b.indexed
}

// Whether a loan is beyond the header's loans, one without a score beyond its unscored, or one with a fresh score beyond its fresh.
pub fn loan_beyond(h: Header, counts: Counts, score: Score) -> bool
    ensures { result ≡ loan_beyond_lem h counts score }
{
    (h.loans <= counts.loans)
        | ((shares::unscored(score) == 1) & (h.unscored <= counts.unscored))
        | ((shares::fresh(score) == 1) & (h.fresh <= counts.fresh))
}

// Whether the loans are fewer than the header counts, those without a score, or those with a fresh one.
pub fn is_short(b: &Book) -> bool
    ensures { result ≡ lacks_lines b.now.header b.now.sums.counts }
{
    let header = b.header;
    let counts = b.sums.counts;
    (counts.loans < header.loans)
        | (counts.unscored < header.unscored)
        | (counts.fresh < header.fresh)
}

// Whether a book may be closed into a buffer of `size` bytes, of which `least` are asked: 6 where the book is short, then 9.
pub fn may_close(b: &Book, least: usize, size: usize) -> Result<(), Refusal>
    ensures { told result ≡ closing_refusal_lem least b.now.header b.now.sums.counts size }
{
    if is_short(b) {
        return Err(Refusal::LoansMissing);
    }
    if size < least {
        return Err(Refusal::SmallBuffer);
    }
    Ok(())
}
