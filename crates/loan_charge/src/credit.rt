// The adjustment factor for credit quality, m, in units of 10^-17.
ghost use Rattle.std.specs.Prelude.{◌≡◌, ◌<◌, ◌≤◌};
ghost use Rattle.loan_charge.specs.Computation.{reached_of};
ghost use Rattle.loan_charge.specs.CreditFactor.{band, column, column_serving_lem, scored_factor_lem, unscored_factor_lem, credit_factor_lem};

use crate::Score;

// How many rates a table has: eleven bands of scores, six ages each.
pub const RATES: usize = 66;

pub type Rates = [u64; RATES];

// How many of the limits low, low + step, .., of which there are `most`, are at or below x: by one division, with no test of each.
fn reached(x: u64, low: u64, step: u64, most: u64) -> u64
    requires { (0 < low) × (0 < step) }
    ensures { (result ≡ reached_of x low step most) × (result ≤ most) }
{
    if x < low {
        return 0;
    }
    ((x - low) / step + 1).min(most)
}

// The band of a score, 0 to 10.
#[tactic(auto, unfolding(crate::specs::CreditFactor::band, crate::specs::CreditFactor::count, crate::specs::Computation::reached_of, crate::specs::Computation::limits))]
pub fn band(number: u64) -> usize
    ensures { (result ≡ band number) × (result ≤ 10) }
{
    reached(number, 600, 20, 10) as usize
}

#[tactic(auto, unfolding(crate::specs::CreditFactor::column, crate::specs::CreditFactor::count, crate::specs::Computation::reached_of, crate::specs::Computation::limits))]
fn column(age: u64) -> usize
    ensures { (result ≡ column age) × (result ≤ 5) }
{
    reached(age, 13, 12, 5) as usize
}

#[tactic(auto, unfolding(crate::specs::CreditFactor::column_serving_lem))]
fn column_serving(aged: bool, age: u64) -> usize
    ensures { (result ≡ column_serving_lem aged age) × (result ≤ 5) }
{
    if aged { column(age) } else { 0 }
}

#[tactic(auto, unfolding(crate::specs::CreditFactor::scored_factor_lem))]
fn scored_factor(rates: &Rates, aged: bool, number: u64, age: u64) -> u64
    ensures { result ≡ scored_factor_lem rates.now aged number age }
{
    let at = band(number) * 6 + column_serving(aged, age);
    rates[at]
}

// More than 5% of the loans without a score: 20 times their number exceeds that of all, with no product that could pass 64 bits.
fn unscored_factor(loans: u64, unscored: u64) -> u64
    ensures { result ≡ unscored_factor_lem loans unscored }
{
    if loans / 20 < unscored {
        300000000000000000
    } else {
        130000000000000000
    }
}

// The factor of a score, by the lent table of rates.
#[tactic(auto, unfolding(crate::specs::CreditFactor::credit_factor_lem))]
pub fn credit_factor(score: Score, aged: bool, loans: u64, unscored: u64, rates: &Rates) -> u64
    ensures { result ≡ credit_factor_lem rates.now aged loans unscored score }
{
    match score {
        Score::Scored { number, age } => scored_factor(rates, aged, number, age),
        Score::Unscored => unscored_factor(loans, unscored),
    }
}
