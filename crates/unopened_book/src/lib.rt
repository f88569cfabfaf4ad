// What an open book is before any line. A crate below the calls: what joins books stands beside what opens and feeds them.
#![tactic(auto)]

ghost use Rattle.std.specs.Prelude.{◌≡◌};
ghost use Rattle.book_model.specs.Calls.{empty_state};
ghost use Rattle.book_model.specs.Terms.{refused_terms};

use book_model::OpenBook;

// What stands where an opening is refused, and before any: an all-zero header, under the regulator's table, with no line taken.
pub fn unopened() -> OpenBook
    ensures { result ≡ empty_state refused_terms }
{
    OpenBook {
        book: book_model::refused(),
        rates: sheet::built_in_rates(),
        cells: [0; cell_report::PLACES],
        index: [0; house_index::PLACES],
        marks: marks::none(),
    }
}

// A book becomes that.
pub fn reset(open_book: &mut OpenBook)
    ensures { open_book.new ≡ empty_state refused_terms }
{
    open_book.book = book_model::refused();
    open_book.rates = sheet::built_in_rates();
    cells::clear(&mut open_book.cells);
    house_index::clear(&mut open_book.index);
    marks::clear(&mut open_book.marks);
}

// A book becomes a copy of another, but for the marks, which stay: they are most of what an open book holds.
pub fn copy_unmarked(to: &mut OpenBook, from: &OpenBook)
    ensures { to.new ≡ record from.now { marks = to.old.marks } }
{
    to.book = from.book;
    to.rates = from.rates;
    to.cells = from.cells;
    to.index = from.index;
}
