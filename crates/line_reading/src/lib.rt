// From what a line holds to the line that was read, or to the refusals that need only the line (01, "A book, line by line").
#![tactic(auto)]

ghost use Rattle.std.specs.Prelude.{◌≡◌, ◌+◌, ltb};
ghost use Rattle.line_forms.specs.Claims.{LineReading, HeaderReading};
ghost use Rattle.line_forms.specs.Readings.{line_of, line_for, header_of, header_for_lem};

use line_forms::{Content, Header, LONGEST_LINE, Line, Refusal, ranges};

#[tactic(auto, unfolding(line_forms::specs::Readings::line_for))]
fn line_for(c: Content) -> Line
    ensures { result ≡ line_for c }
{
    match c {
        Content::NoForm => Line::Refusal(Refusal::NoForm),
        Content::Header(_) => Line::Refusal(Refusal::Misplaced),
        Content::Loan(l) if ranges::loan(l) => Line::Loan(l),
        Content::Policy(p) if ranges::policy(p) => Line::Policy(p),
        Content::Derivative(d) if ranges::derivative(d) => Line::Derivative(d),
        Content::Asset(a) if ranges::asset(a) => Line::Asset(a),
        Content::Amount(a) if ranges::amount(a) => Line::Amount(a),
        Content::Index(i) if ranges::index(i) => Line::Index(i),
        Content::Mark(m) => Line::Mark(m),
        _ => Line::Refusal(Refusal::OutOfRange),
    }
}

// A line after the header.
pub fn read_line(line: &[u8]) -> Line
    ensures equation { result ≡ line_of line.now }
    ensures reading { LineReading line.now result }
{
    if LONGEST_LINE < line.len() {
        return Line::Refusal(Refusal::LongLine);
    }
    line_for(line_contents::content(line))
}

// Whether a header counts more loans without a score and with a fresh one than loans. The sum of the two might not fit.
fn over_counted(h: Header) -> bool
    ensures { result ≡ ltb h.loans (h.unscored + h.fresh) }
{
    if h.loans < h.unscored {
        return true;
    }
    h.loans - h.unscored < h.fresh
}

#[tactic(auto, unfolding(line_forms::specs::Readings::header_for_lem))]
fn header_for(c: Content) -> Result<Header, Refusal>
    ensures { result ≡ header_for_lem c }
{
    match c {
        Content::NoForm => Err(Refusal::NoForm),
        Content::Header(h) => {
            if !ranges::header(h) {
                return Err(Refusal::OutOfRange);
            }
            if over_counted(h) {
                return Err(Refusal::OverCounted);
            }
            Ok(h)
        }
        _ => Err(Refusal::Misplaced),
    }
}

// The line that opens a book.
pub fn read_header(line: &[u8]) -> Result<Header, Refusal>
    ensures equation { result ≡ header_of line.now }
    ensures reading { HeaderReading line.now result }
{
    if LONGEST_LINE < line.len() {
        return Err(Refusal::LongLine);
    }
    header_for(line_contents::content(line))
}
