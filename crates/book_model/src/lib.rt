// A book, and what opening, feeding, joining and closing answer. The calls are in the crates book and joining.
#![tactic(auto)]

ghost use Rattle.std.specs.Prelude.{◌≡◌};
ghost use Rattle.book_model.specs.Calls.{empty_book};
ghost use Rattle.book_model.specs.Terms.{zero_header};

use cell_report::Cells;
use figures::Sums;
use line_forms::Header;
use loan_charge::credit::Rates;

// A book: its header, which never changes, the sums of the lines taken, and how many of these are index lines.
#[derive(Clone, Copy)]
pub struct Book {
    pub header: Header,
    pub sums: Sums,
    pub indexed: u64,
}

// A book with no line taken.
pub fn empty(header: Header) -> Book
    ensures { result ≡ empty_book header }
{
    Book {
        header,
        sums: figures::none(),
        indexed: 0,
    }
}

// The book of a refused opening: an all-zero header.
pub fn refused() -> Book
    ensures { result ≡ empty_book zero_header }
{
    empty(Header::default())
}

// The two values of the house price index by which a property value is adjusted: that of 201512 and that of the loan's month.
// Kept: 0 for a value that is lacking, since the definitions adjustment_of and lacking look values up as numbers of values_at, 0 for none.
#[derive(Clone, Copy)]
pub struct Adjustment {
    pub last: u64,
    pub own: u64,
}

// The values of the house price index, by area and month (crate house_index): 0 where none is set.
pub type Index = [u64; 1584];

// What a mark keeps, as numbers (crate marks).
pub type Row = [u64; 1844];

pub type Marks = [Row; 8];

// An open book: its numbers, the credit factors that it is charged by, its table of cells, its index values and its marks.
// Kept: `Sound` is no invariant of it, since openings, `reset` and the second closing take any book (histories, CallsAsked).
#[derive(Clone, Copy)]
pub struct OpenBook {
    pub book: Book,
    pub rates: Rates,
    pub cells: Cells,
    pub index: Index,
    pub marks: Marks,
}
