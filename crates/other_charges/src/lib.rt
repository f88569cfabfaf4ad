// The charges of what is no home loan, in ten-millionths of a cent: fine enough for every one to be whole.
#![tactic(auto)]

ghost use Rattle.std.specs.Prelude.{◌≡◌, ◌≤◌, ◌-◌, get_or};
ghost use Rattle.other_charges.specs.Charges.{provision_tenths_lem, add_on_thousandths};
ghost use Rattle.other_charges.specs.Parts.{asset_parts_lem, share_parts_lem, derivative_parts_lem, provision_parts_lem};
ghost use Rattle.exact.specs.Choice.{up_to};

use line_forms::{Derivative, Kind};

pub fn asset_parts(amount: u64, factor: u64) -> u64
    requires { (amount ≤ 100000000000) × (factor ≤ 10000) }
    ensures { result ≡ asset_parts_lem amount factor }
{
    amount * factor * 1000
}

// A share of an amount in per cent.
// Kept: one product each, here and in `asset_parts`; with the scale as a const parameter a caller would name 1000 or 100000 and no rule: no plainer.
pub fn share_parts(amount: u64, percent: u64) -> u64
    requires { (amount ≤ 100000000000) × (percent ≤ 100) }
    ensures { result ≡ share_parts_lem amount percent }
{
    amount * percent * 100000
}

// The first value up to 12 months, the second up to 60, the third above.
fn by_months(months: u64, year: u64, five: u64, more: u64) -> u64
    ensures { result ≡ up_to 12 months year (up_to 60 months five more) }
{
    if months <= 12 {
        return year;
    }
    if months <= 60 { five } else { more }
}

// The add-on factor of a derivative in thousandths.
#[tactic(auto, unfolding(crate::specs::Charges::add_on_thousandths))]
fn add_on(kind: Kind, months: u64) -> u64
    ensures { result ≡ add_on_thousandths kind months }
{
    match kind {
        Kind::Rate => by_months(months, 0, 5, 15),
        Kind::Float => 0,
        Kind::Fx => by_months(months, 10, 50, 75),
        Kind::Equity => by_months(months, 60, 80, 100),
        Kind::Metal => by_months(months, 70, 70, 80),
        Kind::Other => by_months(months, 100, 120, 150),
    }
}

// A derivative: its replacement cost counts where that is positive, else as 0.
pub fn derivative_parts(d: Derivative) -> u64
    requires { (d.cost.plus - d.cost.minus ≤ 100000000000) × (d.notional ≤ 100000000000) × (d.payments ≤ 100) × (d.factor ≤ 10000) }
    ensures { result ≡ derivative_parts_lem d.kind (d.cost.plus - d.cost.minus) d.notional d.months d.payments d.factor }
{
    let cost = d.cost.plus.saturating_sub(d.cost.minus);
    let addon = add_on(d.kind, d.months);
    (cost * 1000 + d.notional * addon * d.payments) * d.factor
}

// The per cent of a policy's provision, in tenths: what stands at a place of a column, or 0 past its end.
#[tactic(auto, unfolding(crate::specs::Charges::provision_tenths_lem))]
fn provision_tenths(term: u64, done: usize) -> u64
    ensures { result ≡ provision_tenths_lem term done }
{
    let column: &[u64] = if term <= 60 {
        &[0, 20, 10, 5]
    } else if term <= 120 {
        &[0, 30, 20, 10, 10, 5, 5, 0]
    } else if term <= 180 {
        &[0, 40, 40, 35, 30, 30, 20, 10, 10, 10, 10, 0]
    } else {
        &[
            0, 40, 40, 40, 55, 60, 50, 35, 20, 15, 15, 10, 10, 5, 5, 5, 5, 5, 5, 5, 0,
        ]
    };
    column.get(done).copied().unwrap_or(0)
}

// A policy's provision; `scale` is 10,000 as it stands and 12,500 for 1.25 times.
pub fn provision_parts(premium: u64, term: u64, done: u64, scale: u64) -> u64
    requires { (premium ≤ 100000000) × (scale ≤ 12500) }
    ensures { result ≡ provision_parts_lem premium term done scale }
{
    let tenths = provision_tenths(term, done as usize);
    premium * tenths * scale
}
