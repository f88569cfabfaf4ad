// Sheets of credit factors in hundredths (02, L3): loading one, and the regulator's table as one.
#![tactic(auto)]

ghost use Rattle.std.specs.Prelude.{◌≡◌, true, ◌<◌, get_or};
ghost use Rattle.loan_charge.specs.CreditFactor.{built_in_sheet, built_in_rates_lem, rates_of_lem};
ghost use Rattle.sheet.specs.Sheet.{place_passes_lem, sheet_passes};

use loan_charge::credit::{RATES, Rates};

// As many factors in hundredths as a table has rates. The two names of one type say which of them is meant.
pub type Sheet = [u64; RATES];

// The regulator's table: eleven bands of scores, six ages each. It is made once and lent, since a constant array would be stored at every use.
pub fn built_in() -> Sheet
    ensures { result ≡ built_in_sheet }
{
    [
        300, 300, 300, 300, 300, 300, 205, 205, 205, 205, 205, 205, 180, 180, 180, 180, 180, 180,
        160, 160, 160, 160, 160, 160, 135, 135, 135, 135, 135, 135, 110, 110, 110, 110, 110, 110,
        90, 100, 100, 100, 100, 100, 65, 90, 100, 100, 100, 100, 55, 65, 90, 100, 100, 100, 45, 55,
        65, 90, 100, 100, 40, 45, 55, 65, 90, 100,
    ]
}

// The number at a place, 0 beyond the end.
fn at(sheet: &[u64], k: usize) -> u64
    ensures { result ≡ get_or sheet.now k 0 }
{
    sheet.get(k).copied().unwrap_or(0)
}

#[tactic(auto, unfolding(crate::specs::Sheet::place_passes_lem))]
fn place_passes(sheet: &[u64], k: usize) -> bool
    requires { k < 66 }
    ensures { result ≡ place_passes_lem sheet.now k }
{
    let x = at(sheet, k);
    let band = at(sheet, k + 6);
    let age = at(sheet, k + 1);
    (1 <= x) & (x <= 300) & ((60 <= k) | (band <= x)) & ((5 <= k % 6) | (x <= age))
}

// Whether a sheet keeps the rules.
pub fn passes(sheet: &[u64]) -> bool
    ensures { result ≡ sheet_passes sheet.now }
{
    (sheet.len() == RATES) && (0..RATES).all(|k| place_passes(sheet, k))
}

// The rates of a sheet that passes.
fn rates_of(sheet: &[u64]) -> Rates
    requires { sheet_passes sheet.now ≡ true }
    ensures { result ≡ rates_of_lem sheet.now }
{
    let mut rates = [0u64; RATES];
    for (k, rate) in rates.iter_mut().enumerate() {
        *rate = sheet[k] * 1000000000000000;
    }
    rates
}

// They become the rates lent with a book.
pub fn fill(rates: &mut Rates, sheet: &[u64])
    requires { sheet_passes sheet.now ≡ true }
    ensures { rates.new ≡ rates_of_lem sheet.now }
{
    *rates = rates_of(sheet);
}

// The rates of the regulator's table.
pub fn built_in_rates() -> Rates
    ensures { result ≡ built_in_rates_lem }
{
    rates_of(&built_in())
}
