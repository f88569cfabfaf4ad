// The table of loans by score and loan-to-value (02, L1): 60 cells of four numbers, lent with the book.
#![tactic(auto)]

ghost use Rattle.std.specs.Prelude.{◌≡◌, ◌+◌, ◌*◌, ◌≤◌, ◌<◌, ◌^◌, ltb, get_or};
ghost use Rattle.exact.specs.Choice.{pick};
ghost use Rattle.cell_report.specs.CellReport.{place_of};
ghost use Rattle.book_model.specs.Cells.{band_of, ltv_of, loan_band, ltv_with, add_at_lem, with_cell, empty_cells, CellsBounded};
ghost use Rattle.book_model.specs.Ranges.{LoanRanges, AdjustmentRanges, CellRanges};

use book_model::Adjustment;
use cell_report::{Cell, Cells};
use line_forms::Loan;
use loan_charge::Score;

// No loan in any cell.
pub fn clear(cells: &mut Cells)
    ensures { cells.new ≡ empty_cells }
{
    *cells = [0; cell_report::PLACES];
}

// The band of a score, counted from 0.
fn score_band(score: Score) -> usize
    ensures { (result + 1 ≡ band_of score) × (result ≤ 11) }
{
    match score {
        Score::Scored { number, age: _ } => loan_charge::credit::band(number),
        Score::Unscored => 11,
    }
}

// 1 where x lies above the limit, else 0.
fn exceeds(x: u64, limit: u64) -> usize
    ensures { (result ≡ pick (ltb limit x) 1 0) × (result ≤ 1) }
{
    usize::from(limit < x)
}

// The column of balance over value, counted from 0, where value over balance is p / q: with no quotient, so that a limit is met exactly.
fn ltv_column(p: u64, q: u64) -> usize
    requires { (p ≤ 10 ^ 16) × (q ≤ 2 * 10 ^ 16) }
    ensures { (result + 1 ≡ ltv_of p q) × (result ≤ 4) }
{
    let x = 100 * q;
    exceeds(x, 65 * p) + exceeds(x, 80 * p) + exceeds(x, 90 * p) + exceeds(x, 95 * p)
}

// Where the places of a loan's cell begin, by its adjusted property value.
pub fn place_of(l: Loan, a: Adjustment) -> usize
    requires { LoanRanges l × AdjustmentRanges a }
    ensures { (result ≡ place_of (loan_band l) (ltv_with a l)) × (result ≤ 236) }
{
    let p = l.value * a.last;
    let q = l.balance * a.own;
    (score_band(l.score) * 5 + ltv_column(p, q)) * 4
}

fn add_at(cells: &mut Cells, at: usize, x: u64)
    requires { (at < 240) × (get_or cells.old at 0 + x < 2 ^ 64) }
    ensures { cells.new ≡ add_at_lem cells.old at x }
{
    cells[at] = cells[at] + x;
}

// So much more in the cell whose places begin there.
pub fn add_cell(cells: &mut Cells, place: usize, x: Cell)
    requires { (place ≤ 236) × CellsBounded cells.old 4000000 × CellRanges x }
    ensures { cells.new ≡ with_cell cells.old place x }
{
    add_at(cells, place, x.count);
    add_at(cells, place + 1, x.balance);
    add_at(cells, place + 2, x.charge.plus);
    add_at(cells, place + 3, x.charge.minus);
}
