// The range of each number, with both ends.
ghost use Rattle.std.specs.Prelude.{◌≡◌};
ghost use Rattle.line_forms.specs.Bytes.{within};
ghost use Rattle.line_forms.specs.Contents.{score_in_range, loan_in_range, header_in_range, policy_in_range, derivative_in_range, asset_in_range};
ghost use Rattle.line_forms.specs.Contents.{money_in_range, amount_in_range, month_in_range, index_in_range};

use crate::{Amount, Asset, Derivative, Header, IndexValue, Loan, Policy};
use fixed_point::Signed;
use loan_charge::Score;

// Whether low ≤ n ≤ high.
fn between(n: u64, low: u64, high: u64) -> bool
    ensures { result ≡ within low high n }
{
    (low <= n) & (n <= high)
}

pub fn header(h: Header) -> bool
    ensures { result ≡ header_in_range h }
{
    between(h.loans, 0, 1000000) & between(h.held, 0, 10000000000000)
}

// A month as YYYYMM.
fn month(n: u64, low: u64, high: u64) -> bool
    ensures { result ≡ month_in_range low high n }
{
    between(n, low, high) & between(n % 100, 1, 12)
}

pub fn index(i: IndexValue) -> bool
    ensures { result ≡ index_in_range i }
{
    month(i.month, 200501, 201512) & between(i.value, 1, 1000000)
}

fn score(s: Score) -> bool
    ensures { result ≡ score_in_range s }
{
    match s {
        Score::Scored { number, age } => between(number, 300, 900) & between(age, 0, 600),
        Score::Unscored => true,
    }
}

pub fn loan(l: Loan) -> bool
    ensures { result ≡ loan_in_range l }
{
    let s = l.score;
    between(l.balance, 1, 200000000)
        & between(l.value, 1, 10000000000)
        & between(l.amortization, 1, 480)
        & between(l.term, 1, 480)
        & score(s)
        & between(l.supplement, 0, 1)
        & month(l.from, 190001, 209912)
}

pub fn policy(p: Policy) -> bool
    ensures { result ≡ policy_in_range p }
{
    between(p.premium, 0, 100000000) & between(p.term, 1, 480) & between(p.completed, 0, 40)
}

// Money without a range of its own: at most 100,000,000,000 either way.
fn money(n: Signed) -> bool
    ensures { result ≡ money_in_range n }
{
    between(n.plus, 0, 100000000000) & between(n.minus, 0, 100000000000)
}

pub fn derivative(d: Derivative) -> bool
    ensures { result ≡ derivative_in_range d }
{
    let cost = d.cost;
    money(cost)
        & between(d.notional, 0, 100000000000)
        & between(d.months, 0, 600)
        & between(d.payments, 1, 100)
        & between(d.factor, 0, 10000)
}

pub fn asset(a: Asset) -> bool
    ensures { result ≡ asset_in_range a }
{
    between(a.amount, 0, 100000000000) & between(a.factor, 0, 10000)
}

pub fn amount(a: Amount) -> bool
    ensures { result ≡ amount_in_range a }
{
    let n = a.amount;
    money(n)
}
