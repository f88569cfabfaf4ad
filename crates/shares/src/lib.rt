// What a line adds to the sums of its book, one function for each kind.
#![tactic(auto)]

ghost use Rattle.std.specs.Prelude.{◌≡◌, ◌≤◌};
ghost use Rattle.loan_charge.specs.Tables.{exponentials};
ghost use Rattle.loan_charge.specs.CreditFactor.{RatesInRange};
ghost use Rattle.figures.specs.Sums.{zero_money, zero_signed, money_of};
ghost use Rattle.book_model.specs.Ranges.{LoanRanges, AdjustmentRanges, DerivativeRanges, AssetRanges};
ghost use Rattle.book_model.specs.LineKinds.{unscored_count, fresh_count};
ghost use Rattle.book_model.specs.Share.{other_share, policy_share, derivative_share, asset_share, amount_share, share_with};
ghost use Rattle.book_model.specs.Terms.{under, factor_for};

use book_model::Adjustment;
use figures::{Counts, Sums};
use line_forms::{Amount, Asset, Class, Derivative, Header, Item, Loan, Policy};
use loan_charge::charge::Exponentials;
use loan_charge::credit::Rates;
use loan_charge::{LoanInputs, Score};

// The share of a line that is no loan, but for its charge or its capital: such a line is counted.
fn other() -> Sums
    ensures { result ≡ other_share zero_money zero_money zero_signed zero_signed 0 0 }
{
    let none = figures::none();
    Sums {
        counts: Counts {
            other: 1,
            ..none.counts
        },
        ..none
    }
}

// A line that adds ten-millionths of a cent to rest and moved.
fn charged(rest: u64, moved: u64) -> Sums
    ensures { result ≡ other_share (money_of rest) (money_of moved) zero_signed zero_signed 0 0 }
{
    Sums {
        rest: figures::in_cents(rest),
        moved: figures::in_cents(moved),
        ..other()
    }
}

pub fn policy(p: Policy) -> Sums
    requires { p.premium ≤ 100000000 }
    ensures { result ≡ policy_share p.class p.premium p.term p.completed }
{
    match p.class {
        Class::Home => charged(
            0,
            other_charges::provision_parts(p.premium, p.term, p.completed, 10000),
        ),
        Class::Multi => charged(
            other_charges::provision_parts(p.premium, p.term, p.completed, 12500),
            0,
        ),
    }
}

pub fn derivative(d: Derivative) -> Sums
    requires { DerivativeRanges d }
    ensures { result ≡ derivative_share d }
{
    charged(other_charges::derivative_parts(d), 0)
}

pub fn asset(a: Asset) -> Sums
    requires { AssetRanges a }
    ensures { result ≡ asset_share a }
{
    charged(other_charges::asset_parts(a.amount, a.factor), 0)
}

pub fn amount(a: Amount) -> Sums
    requires { a.amount.plus ≤ 100000000000 }
    ensures { result ≡ amount_share a.item a.amount }
{
    let x = a.amount;
    match a.item {
        Item::Claims => charged(other_charges::share_parts(x.plus, 20), 0),
        Item::Lossc => charged(other_charges::share_parts(x.plus, 40), 0),
        Item::Stated => charged(other_charges::share_parts(x.plus, 100), 0),
        Item::Equity => Sums {
            equity: x,
            ..other()
        },
        Item::Aoci => Sums { aoci: x, ..other() },
        Item::B => Sums {
            b: x.plus,
            ..other()
        },
        Item::C => Sums {
            c: x.plus,
            ..other()
        },
    }
}

// 1 for a loan without a score, else 0.
// Kept: a number and no bool, here and in `fresh`, since the definitions unscored_count and fresh_count are counts, which the sums add up.
pub fn unscored(score: Score) -> u64
    ensures { result ≡ unscored_count score }
{
    match score {
        Score::Scored { number: _, age: _ } => 0,
        Score::Unscored => 1,
    }
}

// 1 for a loan with a fresh score, of age up to 12, else 0.
pub fn fresh(score: Score) -> u64
    ensures { result ≡ fresh_count score }
{
    match score {
        Score::Scored { number: _, age } => { u64::from(age <= 12) }
        Score::Unscored => 0,
    }
}

fn factor(h: Header, score: Score, rates: &Rates) -> u64
    ensures { result ≡ factor_for (under h rates.now) score }
{
    let aged = line_forms::on_aged_table(h);
    loan_charge::credit::credit_factor(score, aged, h.loans, h.unscored, rates)
}

// A loan whose property value is adjusted by `a`.
// Kept: `LoanRanges l` is asked and is no invariant of Loan, since `Content` holds loans out of range (definitions content_of, line_for).
pub fn loan(h: Header, l: Loan, a: Adjustment, exps: &Exponentials, rates: &Rates) -> Sums
    requires { LoanRanges l × AdjustmentRanges a × (exps.now ≡ exponentials) × RatesInRange rates.now }
    ensures { result ≡ share_with (under h rates.now) a l }
{
    let inputs = LoanInputs {
        value: l.value * a.last,
        over: l.balance * a.own,
        balance: l.balance,
        months: l.amortization,
        term: l.term,
        supplement: l.supplement == 1,
        factor: factor(h, l.score, rates),
    };
    let charge = loan_charge::charge::charge(inputs, exps);
    Sums {
        counts: Counts {
            loans: 1,
            unscored: unscored(l.score),
            fresh: fresh(l.score),
            other: 0,
        },
        total: charge.total,
        supplement: charge.supplement,
        ..figures::none()
    }
}
