// Joining two open books (02, L8): head office adds what the regions' books keep, without reading their lines again.
#![tactic(auto)]

ghost use Rattle.std.specs.Prelude.{◌≡◌, ◌+◌, ◌≤◌};
ghost use Rattle.figures.specs.Sums.{plus};
ghost use Rattle.book_model.specs.Calls.{answered, SoundBook, Sound};
ghost use Rattle.book_model.specs.Cells.{CellsBounded};
ghost use Rattle.book_model.specs.Joining.{added_header_lem, many_unscored_lem, keeps_choices_lem, may_join_lem};
ghost use Rattle.book_model.specs.Joining.{added_cells, joining};
ghost use Rattle.book_model.specs.JoiningLaws.{without_marks};

use book_model::{Book, OpenBook};
use cell_report::Cells;
use line_forms::{Header, Refusal};

// The header counts and held of both.
fn added_header(g: Header, h: Header) -> Header
    requires { (g.loans ≤ 1000000) × (g.unscored + g.fresh ≤ g.loans) × (g.held ≤ 10000000000000)
        × ((h.loans ≤ 1000000) × (h.unscored + h.fresh ≤ h.loans) × (h.held ≤ 10000000000000)) }
    ensures { result ≡ added_header_lem g h }
{
    Header {
        loans: g.loans + h.loans,
        unscored: g.unscored + h.unscored,
        fresh: g.fresh + h.fresh,
        held: g.held + h.held,
    }
}

// Whether a header makes loans without a score count 3.0: with no product that could pass 64 bits.
fn many_unscored(h: Header) -> bool
    ensures { result ≡ many_unscored_lem h }
{
    h.loans / 20 < h.unscored
}

// Whether the added header chooses for the loans of a book as its own header does.
fn keeps_choices(own: Header, joined: Header) -> bool
    ensures { result ≡ keeps_choices_lem own joined }
{
    let column = line_forms::on_aged_table(own) == line_forms::on_aged_table(joined);
    let factor = many_unscored(own) == many_unscored(joined);
    (own.loans == 0) | (column & ((own.unscored == 0) | factor))
}

// Whether two books may be joined.
fn may_join(first: &OpenBook, second: &OpenBook) -> bool
    requires { SoundBook first.now.book × SoundBook second.now.book }
    ensures { result ≡ may_join_lem first.now second.now }
{
    let g = first.book.header;
    let h = second.book.header;
    let joined = added_header(g, h);
    let lines = first.book.sums.counts.other + second.book.sums.counts.other + first.book.indexed;
    (first.rates == second.rates)
        & (first.index == second.index)
        & line_forms::ranges::header(joined)
        & (lines <= limits::MOST_OTHER)
        & keeps_choices(g, joined)
        & keeps_choices(h, joined)
}

// The cells of both, place by place.
fn added_cells(first: &Cells, second: &Cells) -> Cells
    requires { CellsBounded first.now 4000000 × CellsBounded second.now 4000000 }
    ensures { result ≡ added_cells first.now second.now }
{
    let mut sums = [0u64; cell_report::PLACES];
    for (i, sum) in sums.iter_mut().enumerate() {
        *sum = first[i] + second[i];
    }
    sums
}

// The books of both, index lines once.
fn joined_book(first: &Book, second: &Book) -> Book
    requires { SoundBook first.now × SoundBook second.now × (first.now.header.loans + second.now.header.loans ≤ 1000000)
        × (first.now.sums.counts.other + second.now.sums.counts.other ≤ 100000) }
    ensures { result ≡ record { header = added_header_lem first.now.header second.now.header; sums = plus first.now.sums second.now.sums; indexed = first.now.indexed } }
{
    Book {
        header: added_header(first.header, second.header),
        sums: figures::add(first.sums, second.sums),
        indexed: first.indexed,
    }
}

// Two open books are joined into a third, which is reset where 16 comes back. Marks are dropped, so those of the two are not looked at.
pub fn join(joined: &mut OpenBook, first: &OpenBook, second: &OpenBook) -> Result<(), Refusal>
    requires { Sound (without_marks first.now) × Sound (without_marks second.now) }
    ensures equation { answered result joined.new ≡ joining (without_marks first.now) (without_marks second.now) }
    ensures sound { Sound joined.new }
{
    if !may_join(first, second) {
        unopened_book::reset(joined);
        return Err(Refusal::NotJoinable);
    }
    marks::clear(&mut joined.marks);
    joined.book = joined_book(&first.book, &second.book);
    joined.rates = first.rates;
    joined.cells = added_cells(&first.cells, &second.cells);
    joined.index = first.index;
    Ok(())
}
