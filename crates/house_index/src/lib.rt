// The house price index (02, L4): the values that are set, by area and month, lent with the book.
#![tactic(auto)]

ghost use Rattle.std.specs.Prelude.{◌≡◌, ◌<◌, set};
ghost use Rattle.book_model.specs.HouseIndex.{InTable, is_indexed_lem, adjustment_of, lacking, place_for, values_at, empty_index};
ghost use Rattle.book_model.specs.Ranges.{LoanRanges, IndexRanges};

use book_model::Adjustment;
use line_forms::{IndexValue, Loan};

// Twelve areas of 132 months; 0 stands where no value is set.
pub const PLACES: usize = 1584;

// Kept: numbers with 0 for none, and no Option, since the definitions values_at and empty_index and the rows of marks speak of them.
pub type Index = book_model::Index;

// No value is set.
pub fn clear(index: &mut Index)
    ensures { index.new ≡ empty_index }
{
    *index = [0; PLACES];
}

// Where the value of an area and month stands.
fn place_of(area: u64, month: u64) -> usize
    requires { InTable area month }
    ensures { (result ≡ place_for area month) × (result < 1584) }
{
    (area * 132 + ((month / 100 - 2005) * 12 + (month % 100 - 1))) as usize
}

// The value of an area and month.
fn value_at(index: &Index, area: u64, month: u64) -> u64
    requires { InTable area month }
    ensures { result ≡ values_at index.now area month }
{
    index[place_of(area, month)]
}

// Whether the property value of a loan goes by the index.
fn is_indexed(l: Loan) -> bool
    ensures { result ≡ is_indexed_lem l }
{
    (200501 <= l.from) & (l.from <= 201511)
}

// The two values by which the property value of a loan is adjusted.
// Kept: `LoanRanges l` here and `IndexRanges i` below are asked, and are no invariants, since `Content` holds both out of range (content_of, line_for).
pub fn adjustment(l: Loan, index: &Index) -> Adjustment
    requires { LoanRanges l }
    ensures { result ≡ adjustment_of (values_at index.now) l }
{
    if is_indexed(l) {
        return Adjustment {
            last: value_at(index, l.area, 201512),
            own: value_at(index, l.area, l.from),
        };
    }
    Adjustment { last: 1, own: 1 }
}

// Whether one of them is not set.
pub fn is_lacking(a: Adjustment) -> bool
    ensures { result ≡ lacking a }
{
    (a.own == 0) | (a.last == 0)
}

// The value that is set where this one would stand, 0 for none.
// Kept: 0 and no Option, since the definition values_at gives the number that stands there.
pub fn before(index: &Index, i: IndexValue) -> u64
    requires { IndexRanges i }
    ensures { result ≡ values_at index.now i.area i.month }
{
    value_at(index, i.area, i.month)
}

pub fn set(index: &mut Index, i: IndexValue)
    requires { IndexRanges i }
    ensures { index.new ≡ set index.old (place_for i.area i.month) i.value }
{
    index[place_of(i.area, i.month)] = i.value;
}
