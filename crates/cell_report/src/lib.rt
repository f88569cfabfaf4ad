// The table of loans by score and loan-to-value as 60 lines (02, L1), each written to what remains of the lent buffer.
#![tactic(auto)]

ghost use Rattle.std.specs.Prelude.{◌≡◌, ◌≤◌, length};
ghost use Rattle.report.specs.Line.{Written};
ghost use Rattle.cell_report.specs.CellReport.{cell_line, band_text, cells_text, cell_at};

use fixed_point::Signed;
use report::Field;

// How many places a table of cells has: four for each of 60 cells.
pub const PLACES: usize = 240;

// Kept: the definitions cell_at here, and with_cell and cells_with of book_model, speak of the 240 numbers by their places.
pub type Cells = [u64; PLACES];

// The loans of a cell: how many, and the sums of their balances and charges.
#[derive(Clone, Copy)]
pub struct Cell {
    pub count: u64,
    pub balance: u64,
    pub charge: Signed,
}

fn cell_at(cells: &Cells, band: u64, ltv: u64) -> Cell
    requires { (1 ≤ band) × (band ≤ 12) × (1 ≤ ltv) × (ltv ≤ 5) }
    ensures { result ≡ cell_at cells.now band ltv }
{
    let place = (((band - 1) * 5 + (ltv - 1)) * 4) as usize;
    let plus = cells[place + 2];
    let minus = cells[place + 3];
    let charge = Signed { plus, minus };
    Cell {
        count: cells[place],
        balance: cells[place + 1],
        charge,
    }
}

// One line. Each number has at most 20 digits, and the charge a sign.
fn put_cell(out: &mut [u8], band: u64, ltv: u64, cell: Cell) -> usize
    requires { 117 ≤ length out.old }
    ensures line { Written out.old (cell_line band ltv cell) result out.new }
    ensures short { result ≤ 117 }
{
    let fields = [
        Field::Count(band),
        Field::Count(ltv),
        Field::Count(cell.count),
        Field::Count(cell.balance),
        Field::Number(cell.charge),
    ];
    report::put_line(out, b"cell", &fields)
}

// The lines of a band.
fn put_band(out: &mut [u8], cells: &Cells, band: u64) -> usize
    requires { (585 ≤ length out.old) × (1 ≤ band) × (band ≤ 12) }
    ensures lines { Written out.old (band_text (cell_at cells.now) band) result out.new }
    ensures short { result ≤ 585 }
{
    let mut at = 0;
    for ltv in 1..=5 {
        at += put_cell(&mut out[at..], band, ltv, cell_at(cells, band, ltv));
    }
    at
}

// All lines, band after band.
pub fn put_cells(out: &mut [u8], cells: &Cells) -> usize
    requires { 8192 ≤ length out.old }
    ensures { Written out.old (cells_text (cell_at cells.now)) result out.new }
{
    let mut at = 0;
    for band in 1..=12 {
        at += put_band(&mut out[at..], cells, band);
    }
    at
}
