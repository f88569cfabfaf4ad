// What the lines of a book add up to, and the report's figures computed from it. Numbers only.
#![tactic(auto)]

ghost use Rattle.std.specs.Prelude.{◌≡◌, ◌+◌, ◌-◌, ◌*◌, ◌/◌, ◌<◌, ◌≤◌, ◌^◌};
ghost use Rattle.figures.specs.Sums.{counts_sum_lem, money_sum_lem, money_of, no_sums, plus, Bounded, InLimits};
ghost use Rattle.figures.specs.Figures.{whole_cents_lem, home_of, oper_of, admitted_b_lem, admitted_c_lem, admitted, capital_of, ratio_size_lem, ratio_of, figures_of};
ghost use Rattle.figures.specs.Division.{divided};

use fixed_point::{Division, Signed};
use std::ops::Add;

// An amount of money: whole cents and ten-millionths of a cent. In a sum the parts are not carried into the cents.
#[derive(Clone, Copy, Default)]
pub struct Money {
    pub cents: u64,
    pub parts: u64,
}

// How many lines are loans, loans without a score, loans with a fresh one, and no loans.
#[derive(Clone, Copy, Default)]
pub struct Counts {
    pub loans: u64,
    pub unscored: u64,
    pub fresh: u64,
    pub other: u64,
}

// What lines add up to.
#[derive(Clone, Copy, Default)]
pub struct Sums {
    pub counts: Counts,
    pub total: Signed,
    pub supplement: Signed,
    pub rest: Money,
    pub moved: Money,
    pub equity: Signed,
    pub aoci: Signed,
    pub b: u64,
    pub c: u64,
}

// n ten-millionths of a cent.
// Kept: no `From<u64>`, since a number may as well be cents: the name says which, and From would be no plainer.
pub fn in_cents(n: u64) -> Money
    ensures { result ≡ money_of n }
{
    Money {
        cents: n / 10000000,
        parts: n % 10000000,
    }
}

// The sums of no line.
pub fn none() -> Sums
    ensures { result ≡ no_sums }
{
    Sums::default()
}

impl Add for Money {
    type Output = Money;

    ghost can_add = { λ x y. (x.cents + y.cents < 2 ^ 64) × (x.parts + y.parts < 2 ^ 64) };

    ghost add_gives = { λ x y r. r ≡ money_sum_lem x y };

    fn add(self, rhs: Money) -> Money {
        Money {
            cents: self.cents + rhs.cents,
            parts: self.parts + rhs.parts,
        }
    }
}

impl Add for Counts {
    type Output = Counts;

    ghost can_add = { λ x y. (x.loans + y.loans < 2 ^ 64) × (x.unscored + y.unscored < 2 ^ 64) × (x.fresh + y.fresh < 2 ^ 64)
        × (x.other + y.other < 2 ^ 64) };

    ghost add_gives = { λ x y r. r ≡ counts_sum_lem x y };

    fn add(self, rhs: Counts) -> Counts {
        Counts {
            loans: self.loans + rhs.loans,
            unscored: self.unscored + rhs.unscored,
            fresh: self.fresh + rhs.fresh,
            other: self.other + rhs.other,
        }
    }
}

// Two sums together.
pub fn add(x: Sums, y: Sums) -> Sums
    requires { Bounded x × Bounded y × InLimits (plus x y) }
    ensures { result ≡ plus x y }
{
    Sums {
        counts: x.counts + y.counts,
        total: x.total + y.total,
        supplement: x.supplement + y.supplement,
        rest: x.rest + y.rest,
        moved: x.moved + y.moved,
        equity: x.equity + y.equity,
        aoci: x.aoci + y.aoci,
        b: x.b + y.b,
        c: x.c + y.c,
    }
}

// A ratio in hundredths of a per cent, or none where nothing is required (what 01 prints as `none`).
pub type Ratio = Option<Signed>;

// The report's figures, in its order.
#[derive(Clone, Copy)]
pub struct Figures {
    pub loans: u64,
    pub total: Signed,
    pub supplement: Signed,
    pub home: u64,
    pub moved: u64,
    pub rest: u64,
    pub oper: u64,
    pub required: u64,
    pub capital: Signed,
    pub ratio: Ratio,
}

fn whole_cents(x: Money) -> u64
    requires { (x.cents < 2 ^ 62) × (x.parts < 2 ^ 62) }
    ensures { result ≡ whole_cents_lem x }
{
    x.cents + x.parts.div_ceil(10000000)
}

fn home(total: Signed, held: u64) -> u64
    requires { total.minus + held < 2 ^ 64 }
    ensures { result ≡ home_of total held }
{
    total.plus.saturating_sub(total.minus + held)
}

fn oper(home: u64, rest: u64, supplement: Signed) -> u64
    requires { home + rest + supplement.minus < 2 ^ 63 }
    ensures { result ≡ oper_of home rest supplement }
{
    (home + rest + supplement.minus)
        .saturating_sub(supplement.plus)
        .div_ceil(5)
}

// What is admitted of the amounts b and c goes by e, equity as far as it is above 0.
#[derive(Drop)]
struct Classes {
    e: u64,
    b: u64,
    c: u64,
    ghost in_limits: { (e < 2 ^ 60) × (b < 2 ^ 60) × (c < 2 ^ 60) },
}

impl Classes {
    fn admitted_b(&self) -> u64
        ensures { result ≡ admitted_b_lem self.now.e self.now.b }
    {
        self.b.min(2 * self.e / 3)
    }

    // What is admitted of c beside `b`, which is admitted of b.
    fn admitted_c(&self, b: u64) -> u64
        requires { b < 2 ^ 60 }
        ensures { result ≡ admitted_c_lem self.now.e b self.now.c }
    {
        let e = self.e;
        self.c
            .min((2 * e / 3).saturating_sub(b).min(7 * (e + b) / 93))
    }

    // Both admitted amounts.
    #[tactic(auto, unfolding(crate::specs::Figures::admitted))]
    fn both_admitted(&self) -> u64
        ensures { result ≡ admitted self.now.e self.now.b self.now.c }
    {
        let b = self.admitted_b();
        b + self.admitted_c(b)
    }
}

#[tactic(auto, unfolding(crate::specs::Figures::capital_of))]
fn capital(equity: Signed, aoci: Signed, b: u64, c: u64) -> Signed
    requires { (equity.plus < 2 ^ 60) × (equity.minus < 2 ^ 60) × (aoci.plus < 2 ^ 60) × (aoci.minus < 2 ^ 60) × (b < 2 ^ 60) × (c < 2 ^ 60) }
    ensures { result ≡ capital_of equity aoci b c }
{
    let e = equity.plus.saturating_sub(equity.minus);
    let more = Classes { e, b, c }.both_admitted();
    Signed::difference(equity.plus + aoci.plus + more, equity.minus + aoci.minus)
}

// n × 15,000 divided by d: n × 15, and then three times a factor of 10, so that nothing passes 64 bits.
fn divide_scaled(n: u64, d: u64) -> Division
    requires { (0 < d) × (d < 2 ^ 59) × (n < 2 ^ 59) × (n * 15 / d < 10000) }
    ensures { result ≡ divided (n * 15000) d }
{
    let first = Division {
        quotient: n * 15 / d,
        remainder: n * 15 % d,
    };
    let tens = fixed_point::division_step(first, d, 10);
    let hundreds = fixed_point::division_step(tens, d, 10);
    fixed_point::division_step(hundreds, d, 10)
}

// The size of a ratio of capital n to d. From a quotient of 10,000 by n × 15 on, the limit is reached.
// Kept: `negative` is a bool, as the definitions rounded and ratio_size_lem take it.
fn ratio_size(negative: bool, n: u64, d: u64) -> u64
    requires { (0 < d) × (d < 2 ^ 59) × (n < 2 ^ 59) }
    ensures { result ≡ ratio_size_lem negative n d }
{
    if 10000 <= n * 15 / d {
        return 10000000;
    }
    let x = divide_scaled(n, d);
    if negative {
        return x.quotient + x.remainder.min(1);
    }
    x.quotient
}

#[tactic(auto, unfolding(crate::specs::Figures::ratio_of))]
fn capital_ratio(capital: Signed, required: u64) -> Ratio
    requires { (required < 2 ^ 59) × (capital.plus < 2 ^ 59) × (capital.minus < 2 ^ 59) }
    ensures { result ≡ ratio_of capital required }
{
    if required == 0 {
        return None;
    }
    let plus = ratio_size(false, capital.plus.saturating_sub(capital.minus), required);
    let minus = ratio_size(true, capital.minus.saturating_sub(capital.plus), required);
    Some(Signed { plus, minus })
}

// The report's figures from the header's held and the sums of the lines.
#[tactic(auto, unfolding(crate::specs::Figures::figures_of, crate::specs::Figures::required_of))]
pub fn compute(held: u64, s: Sums) -> Figures
    requires { (held ≤ 10000000000000) × Bounded s × InLimits s }
    ensures { result ≡ figures_of held s }
{
    let total = Signed::difference(s.total.plus, s.total.minus);
    let supplement = Signed::difference(s.supplement.plus, s.supplement.minus);
    let home = home(s.total, held);
    let moved = whole_cents(s.moved);
    let rest = whole_cents(s.rest);
    let oper = oper(home, rest, s.supplement);
    let required = home + rest + oper;
    let capital = capital(s.equity, s.aoci, s.b, s.c);
    let ratio = capital_ratio(capital, required);
    Figures {
        loans: s.counts.loans,
        total,
        supplement,
        home,
        moved,
        rest,
        oper,
        required,
        capital,
        ratio,
    }
}
