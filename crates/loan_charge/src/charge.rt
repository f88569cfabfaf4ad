// A loan's two numbers in fixed point. Each step that multiplies and divides is a function of its own.
ghost use Rattle.std.specs.Prelude.{◌≡◌, ◌+◌, ◌*◌, ◌/◌, ◌^◌, ◌<◌, ◌≤◌, min, true, false};
ghost use Rattle.loan_charge.specs.Tables.{exponentials};
ghost use Rattle.fixed_point.specs.Quotient.{scaled_product_lem};
ghost use Rattle.coefficients.specs.Coefficients.{first_set_lem};
ghost use Rattle.loan_charge.specs.Charge.{Chargeable};
ghost use Rattle.loan_charge.specs.Computation.{unit, scaled_value_lem, ratio_units, distance, deviations, exponent, exponents, heights_at_lem, Usable};
ghost use Rattle.loan_charge.specs.Computation.{weighted, scaled_sum_lem, curves_sum_lem, a_units, b_units, factor, rate, times, signed};
ghost use Rattle.loan_charge.specs.Computation.{rounded_up_lem, rounded_down_lem, base_units_lem, rate_units_lem, charge_from, charge_of};

use crate::LoanInputs;
use coefficients::{Remaining, ScaledCurve, first_set};
use fixed_point::{Division, Signed, division_step, scaled_product};

// The exponential's table, under a name for the layers above.
pub type Exponentials = exponential::Exponentials;

// A loan's base plus supplement, and its supplement, in cents.
#[derive(Clone, Copy)]
pub struct LoanCharge {
    pub total: Signed,
    pub supplement: Signed,
}

// The two exponents of a curve, in units of 2^-38.
// Kept: `Exponents` and `Heights` stay two types of one shape, since one type would let an exponent be taken for a height: no plainer.
#[derive(Clone, Copy)]
struct Exponents {
    first: u64,
    second: u64,
}

// The two exponentials of a curve, in units of 2^-40.
#[derive(Clone, Copy)]
struct Heights {
    first: u64,
    second: u64,
}

// What z is made of: value over balance as p / q.
#[derive(Clone, Copy)]
struct Fraction {
    p: u64,
    q: u64,
    ghost least: { 0 < q },
    ghost most: { q ≤ 2 * 10 ^ 16 },
}

// z of a loan, value over balance, in units of 1 / UNIT: within 1 and 16.
#[derive(Clone, Copy)]
struct Ratio {
    w: u64,
    ghost least: { unit ≤ w },
    ghost most: { w ≤ 16 * unit },
}

// A mean and a standard deviation of a curve, in 120000ths.
#[derive(Clone, Copy)]
struct Bell {
    mean: u64,
    deviation: u64,
    ghost mean_most: { mean < 2 ^ 20 },
    ghost deviation_least: { 8192 ≤ deviation },
}

// The whole numbers of a curve, within what is computed of them.
#[derive(Clone, Copy)]
struct Curve {
    scaled: ScaledCurve,
    ghost usable: { Usable scaled },
}

// The balance in cents, by which B counts.
#[derive(Clone, Copy)]
struct Balance {
    cents: u64,
    ghost most: { cents ≤ 2 * 10 ^ 8 },
}

// A loan that has a charge, and its z.
#[derive(Clone, Copy)]
struct Charged {
    loan: LoanInputs,
    z: Ratio,
    ghost chargeable: { Chargeable loan },
    ghost ratio: { z.w ≡ ratio_units loan },
}

// 1 in the units in which z is carried, 1 / (120000 × 2^27).
const UNIT: u64 = 16106127360000;

// 1.15 in units ten times finer: the limit of a.
const LIMIT: u64 = 185220464640000;

// A counts so many times, where B counts by the balance in cents.
const SCALE_A: u64 = 10000000;

// 5^17: 10^17 is this times 2^17.
const FIVES: u64 = 762939453125;

// A cent in the units in which money is carried.
const CENT: u64 = 1200000;

// Numbers are made over an offset of so many cents.
const OFFSET: u64 = 100000;

// The offset with what covers all errors and what rounds up; and less what covers all errors.
const CEILING_OFFSET: u64 = 120001200499;

const FLOOR_OFFSET: u64 = 119999989000;

impl Fraction {
    // A long division carried on by five more steps, whose factors together are UNIT.
    fn refine(self, d: Division) -> u64
        requires { (d.quotient < 16) × (d.remainder < self.q) }
        ensures { result ≡ unit * (d.quotient * self.q + d.remainder) / self.q }
    {
        let q = self.q;
        let d1 = division_step(d, q, 400);
        let d2 = division_step(d1, q, 300);
        let d3 = division_step(d2, q, 512);
        let d4 = division_step(d3, q, 512);
        let d5 = division_step(d4, q, 512);
        d5.quotient
    }

    // z of a divisor that leaves room for larger steps: 960000 p fits, so one more step is enough.
    fn short_value(self) -> u64
        requires { (self.q ≤ self.p) × (self.q < 2 ^ 40) }
        ensures { result ≡ scaled_value_lem self.p self.q }
    {
        let p = self.p;
        let q = self.q;
        if 16 * q <= p {
            return 16 * UNIT;
        }
        let n = p * 960000;
        let d = Division {
            quotient: n / q,
            remainder: n % q,
        };
        let last = division_step(d, q, 16777216);
        last.quotient
    }

    // z of any divisor.
    // Kept: another formula than `short_value`, whose two divisions the edit short_division_up_to_2_41 holds to divisors below 2^40.
    fn long_value(self) -> u64
        requires { self.q ≤ self.p }
        ensures { result ≡ scaled_value_lem self.p self.q }
    {
        let p = self.p;
        let q = self.q;
        let z = p / q;
        if 16 <= z {
            return 16 * UNIT;
        }
        self.refine(Division {
            quotient: z,
            remainder: p % q,
        })
    }

    // z = p / q within 1 and 16, in units of 1 / UNIT.
    fn scaled_value(self) -> u64
        ensures { result ≡ scaled_value_lem self.p self.q }
    {
        let p = self.p;
        let q = self.q;
        if p < q {
            return UNIT;
        }
        if q < 1099511627776 {
            self.short_value()
        } else {
            self.long_value()
        }
    }
}

impl Bell {
    // The distance of z from the mean.
    #[tactic(auto, unfolding(crate::specs::Computation::distance))]
    fn distance_from(self, z: Ratio) -> u64
        ensures { result ≡ distance z.w self.mean }
    {
        let w = z.w;
        let c = self.mean * 134217728;
        if c <= w { w - c } else { c - w - 1 }
    }

    // The same in standard deviations.
    #[tactic(auto, unfolding(crate::specs::Computation::deviations))]
    fn deviations_from(self, z: Ratio) -> u64
        ensures { result ≡ deviations z.w self.mean self.deviation }
    {
        self.distance_from(z) * 8192 / self.deviation
    }

    // (z - mean)² / (2 deviation²).
    #[tactic(auto, unfolding(crate::specs::Computation::exponent))]
    fn exponent_of(self, z: Ratio) -> u64
        ensures { result ≡ exponent z.w self.mean self.deviation }
    {
        let t = self.deviations_from(z);
        scaled_product(t, t) / 8
    }
}

// exp(-y) of both, never below it.
#[tactic(auto, unfolding(crate::specs::Computation::heights_at_lem))]
fn heights_at(y: Exponents, exps: &Exponentials) -> Heights
    requires { exps.now ≡ exponentials }
    ensures { result ≡ heights_at_lem y }
{
    Heights {
        first: exponential::exp_upper(y.first, exps),
        second: exponential::exp_upper(y.second, exps),
    }
}

impl Curve {
    // Both exponents at z.
    #[tactic(auto, unfolding(crate::specs::Computation::exponents))]
    fn exponents_of(self, z: Ratio) -> Exponents
        ensures { result ≡ exponents z.w self.scaled }
    {
        let c = self.scaled;
        let first = Bell {
            mean: c.mean1,
            deviation: c.deviation1,
        };
        let second = Bell {
            mean: c.mean2,
            deviation: c.deviation2,
        };
        Exponents {
            first: first.exponent_of(z),
            second: second.exponent_of(z),
        }
    }

    // C1 e1 + C2 e2.
    #[tactic(auto, unfolding(crate::specs::Computation::weighted))]
    fn weigh(self, h: Heights) -> Signed
        requires { (h.first ≤ 2 ^ 40) × (h.second ≤ 2 ^ 40) }
        ensures { result ≡ weighted self.scaled h }
    {
        let c = self.scaled;
        Signed {
            plus: c.weight1 * h.first + c.plus2 * h.second,
            minus: c.minus2 * h.second,
        }
    }

    // The curve at its exponents.
    fn units(self, y: Exponents, exps: &Exponentials) -> Signed
        requires { exps.now ≡ exponentials }
        ensures { result ≡ weighted self.scaled (heights_at_lem y) }
    {
        self.weigh(heights_at(y, exps))
    }
}

impl Balance {
    // 10^7 x + k y, for x and y in units of 2^-40: of two parts each, so that no product passes 64 bits.
    fn scaled_sum(self, x: u64, y: u64) -> u64
        requires { (x ≤ 2 ^ 58) × (y ≤ 2 ^ 58) }
        ensures { result ≡ scaled_sum_lem self.cents x y }
    {
        let k = self.cents;
        let high = SCALE_A * (x / 1073741824) + k * (y / 1073741824);
        let low = SCALE_A * (x % 1073741824) + k * (y % 1073741824);
        (high + low / 1073741824) / 1024
    }

    // The same, where x and y are mostly 0: this test and that of `rare_product` save 18 instructions a loan.
    #[tactic(auto, unfolding(crate::specs::Computation::scaled_sum_lem))]
    fn rare_sum(self, x: u64, y: u64) -> u64
        requires { (x ≤ 2 ^ 58) × (y ≤ 2 ^ 58) }
        ensures { result ≡ scaled_sum_lem self.cents x y }
    {
        if x + y == 0 { 0 } else { self.scaled_sum(x, y) }
    }

    // The same of both sides of A and of B.
    #[tactic(auto, unfolding(crate::specs::Computation::curves_sum_lem))]
    fn curves_sum(self, a: Signed, b: Signed) -> Signed
        requires { (a.plus ≤ 2 ^ 58) × (a.minus ≤ 2 ^ 58) × (b.plus ≤ 2 ^ 58) × (b.minus ≤ 2 ^ 58) }
        ensures { result ≡ curves_sum_lem self.cents a b }
    {
        Signed {
            plus: self.scaled_sum(a.plus, b.plus),
            minus: self.rare_sum(a.minus, b.minus),
        }
    }
}

// m, given in 10^-17, in units of 2^-40: by 2^23 / 5^17, which is the same and fits.
#[tactic(auto, unfolding(crate::specs::Computation::factor))]
fn factor_of(m: u64) -> u64
    requires { m ≤ 3 * 10 ^ 17 }
    ensures { result ≡ factor m }
{
    m / FIVES * 8388608 + m % FIVES * 8388608 / FIVES
}

// a + b e of the supplement's rate; a has a limit of 1.15.
#[tactic(auto, unfolding(crate::specs::Computation::rate))]
fn rate_of(z: Ratio, c: u64, b: u64, e: u64) -> u64
    requires { (c ≤ 2280) × (b ≤ 3) × (e ≤ 2 ^ 41) }
    ensures { result ≡ rate z.w c b e }
{
    let a = (c * 13421772800 + (z.w - UNIT)).min(LIMIT);
    a * 8192 / 1200000 + b * e / 10
}

// A product whose first factor is mostly 0.
fn rare_product(a: u64, b: u64) -> u64
    requires { (a < 2 ^ 51) × (b < 2 ^ 51) }
    ensures { result ≡ scaled_product_lem a b }
{
    if a == 0 { 0 } else { scaled_product(a, b) }
}

#[tactic(auto, unfolding(crate::specs::Computation::times))]
fn times_rate(x: Signed, f: u64) -> Signed
    requires { (x.plus < 2 ^ 51) × (x.minus < 2 ^ 51) × (f < 2 ^ 51) }
    ensures { result ≡ times x f }
{
    Signed {
        plus: scaled_product(x.plus, f),
        minus: rare_product(x.minus, f),
    }
}

// Two amounts together in cents, rounded up.
#[tactic(auto, unfolding(crate::specs::Computation::signed, crate::specs::Computation::rounded_up_lem))]
fn rounded_up(x: Signed, y: Signed) -> Signed
    requires { (x.plus < 2 ^ 51) × (y.plus < 2 ^ 51) × (x.minus + y.minus ≤ 120000000000) }
    ensures { result ≡ rounded_up_lem x y }
{
    Signed::difference(
        (x.plus + y.plus + CEILING_OFFSET - (x.minus + y.minus)) / CENT,
        OFFSET,
    )
}

// An amount in cents, rounded down.
#[tactic(auto, unfolding(crate::specs::Computation::signed, crate::specs::Computation::rounded_down_lem))]
fn rounded_down(x: Signed) -> Signed
    requires { (x.plus < 2 ^ 51) × (x.minus ≤ 119999989000) }
    ensures { result ≡ rounded_down_lem x }
{
    Signed::difference((x.plus + FLOOR_OFFSET - x.minus) / CENT, OFFSET)
}

impl Charged {
    // What its coefficients go by.
    fn remaining(self) -> Remaining
        ensures { (result.first ≡ first_set_lem self.loan.term) × (result.months ≡ self.loan.months) }
    {
        Remaining {
            first: first_set(self.loan.term),
            months: self.loan.months,
        }
    }

    // Both curves in one sum. All exponents are made before any exponential, so that their divisions stand together: a processor works on several at
    // once, but looks ahead only so far.
    fn curves_at(self, exps: &Exponentials) -> Signed
        requires { exps.now ≡ exponentials }
        ensures { result ≡ curves_sum_lem self.loan.balance (a_units self.loan) (b_units self.loan) }
    {
        let remaining = self.remaining();
        let ca = Curve {
            scaled: remaining.curve_a(),
        };
        let cb = Curve {
            scaled: remaining.curve_b(),
        };
        let ya = ca.exponents_of(self.z);
        let yb = cb.exponents_of(self.z);
        let a = ca.units(ya, exps);
        let b = cb.units(yb, exps);
        let balance = Balance {
            cents: self.loan.balance,
        };
        balance.curves_sum(a, b)
    }

    // The base. m, a division too, is made before the exponentials for the same reason.
    #[tactic(auto, unfolding(crate::specs::Computation::base_units_lem))]
    fn base_units(self, exps: &Exponentials) -> Signed
        requires { exps.now ≡ exponentials }
        ensures { result ≡ base_units_lem self.loan }
    {
        let m = factor_of(self.loan.factor);
        let sum = self.curves_at(exps);
        times_rate(sum, m)
    }

    // r of the supplement.
    #[tactic(auto, unfolding(crate::specs::Computation::rate_units_lem))]
    fn rate_units(self, exps: &Exponentials) -> u64
        requires { exps.now ≡ exponentials }
        ensures { result ≡ rate_units_lem self.loan }
    {
        let remaining = self.remaining();
        let e = exponential::exp_upper(self.loan.months * 274877906944 / 120, exps);
        rate_of(self.z, remaining.rate_c(), remaining.rate_b(), e)
    }
}

#[tactic(auto, unfolding(crate::specs::Computation::charge_from))]
fn with_supplement(base: Signed, r: u64) -> LoanCharge
    requires { (base.plus ≤ 119205000000000) × (base.minus ≤ 27150000000) × (r ≤ 2 ^ 41) }
    ensures { result ≡ charge_from true base r }
{
    let supplement = times_rate(base, r);
    LoanCharge {
        total: rounded_up(base, supplement),
        supplement: rounded_down(supplement),
    }
}

#[tactic(auto, unfolding(crate::specs::Computation::charge_from))]
fn without_supplement(base: Signed) -> LoanCharge
    requires { (base.plus ≤ 119205000000000) × (base.minus ≤ 27150000000) }
    ensures { result ≡ charge_from false base 0 }
{
    LoanCharge {
        total: rounded_up(base, Signed::default()),
        supplement: Signed::default(),
    }
}

// The exponential's table, to be made once and lent to `charge`.
pub fn table() -> Exponentials
    ensures { result ≡ exponentials }
{
    exponential::table()
}

// A loan's two numbers.
#[tactic(auto, unfolding(crate::specs::Computation::charge_of, crate::specs::Computation::charge_from))]
pub fn charge(l: LoanInputs, exps: &Exponentials) -> LoanCharge
    requires { Chargeable l × (exps.now ≡ exponentials) }
    ensures { result ≡ charge_of l }
{
    let fraction = Fraction {
        p: l.value,
        q: l.over,
    };
    let z = Ratio {
        w: fraction.scaled_value(),
    };
    let charged = Charged { loan: l, z };
    let base = charged.base_units(exps);
    if l.supplement {
        with_supplement(base, charged.rate_units(exps))
    } else {
        without_supplement(base)
    }
}
