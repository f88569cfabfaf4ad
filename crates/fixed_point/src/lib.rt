// Products and quotients of 64-bit fixed-point numbers. Each contract is an equation on natural numbers.
#![tactic(auto)]

ghost use Rattle.std.specs.Prelude.{◌≡◌, ◌+◌, ◌*◌, ◌<◌, ◌≤◌, ◌^◌};
ghost use Rattle.fixed_point.specs.Quotient.{scaled_product_lem, division_step_lem};
ghost use Rattle.fixed_point.specs.SignedNumbers.{signed_difference, signed_plus};

use std::ops::Add;

// The product of two numbers in units of 2^-40, rounded down: of two halves each, so that no product passes 64 bits.
pub fn scaled_product(a: u64, b: u64) -> u64
    requires { (a < 2 ^ 51) × (b < 2 ^ 51) }
    ensures { result ≡ scaled_product_lem a b }
{
    let a1 = a / 1048576;
    let a0 = a % 1048576;
    let b1 = b / 1048576;
    let b0 = b % 1048576;
    a1 * b1 + (a1 * b0 + a0 * b1 + a0 * b0 / 1048576) / 1048576
}

// The same product of numbers up to 1 and up to 2: there is room for the first times each half of the second.
// Kept: another formula than `scaled_product`, three products for its five, and the edit half_misscaled is a mistake in it alone.
pub fn small_product(a: u64, b: u64) -> u64
    requires { (a ≤ 2 ^ 40) × (b ≤ 2 ^ 41) }
    ensures { result ≡ scaled_product_lem a b }
{
    let b1 = b / 1048576;
    let b0 = b % 1048576;
    (a * b1 + a * b0 / 1048576) / 1048576
}

// A signed number: plus - minus.
#[derive(Clone, Copy, Default)]
pub struct Signed {
    pub plus: u64,
    pub minus: u64,
}

impl Signed {
    // The number plus - minus, with one side 0.
    pub fn difference(plus: u64, minus: u64) -> Self
        ensures { result ≡ signed_difference plus minus }
    {
        Signed {
            plus: plus.saturating_sub(minus),
            minus: minus.saturating_sub(plus),
        }
    }
}

impl Add for Signed {
    type Output = Signed;

    ghost can_add = { λ x y. (x.plus + y.plus < 2 ^ 64) × (x.minus + y.minus < 2 ^ 64) };

    ghost add_gives = { λ x y r. r ≡ signed_plus x y };

    fn add(self, rhs: Signed) -> Signed {
        Signed {
            plus: self.plus + rhs.plus,
            minus: self.minus + rhs.minus,
        }
    }
}

// A long division so far.
#[derive(Clone, Copy)]
pub struct Division {
    pub quotient: u64,
    pub remainder: u64,
}

// One more step of a long division: the quotient in units f times finer.
pub fn division_step(d: Division, divisor: u64, f: u64) -> Division
    requires { (d.remainder < divisor) × (divisor * f < 2 ^ 64) × (d.quotient * f < 2 ^ 62) × (f < 2 ^ 62) }
    ensures { result ≡ division_step_lem d divisor f }
{
    Division {
        quotient: d.quotient * f + d.remainder * f / divisor,
        remainder: d.remainder * f % divisor,
    }
}
