// Charges many different loans, each with the supplement, to time the charge alone. Standard input has how many, then the range
// of the sum of their totals and of their supplements, as in a case of `try_loan_charge`. Printed is whether the sums lie in them.
#![tactic(auto)]

ghost use Rattle.std.specs.Prelude.{◌≡◌, ◌<◌};
ghost use Rattle.loan_charge.specs.Tables.{exponentials};

use cases::Cases;
use fixed_point::Signed;
use loan_charge::LoanInputs;
use loan_charge::charge::{Exponentials, LoanCharge};

// The number after x of a sequence of numbers below 2^31 - 1, by which the loans differ.
fn next(x: u64) -> u64
    requires { x < 2147483647 }
    ensures { result < 2147483647 }
{
    x * 48271 % 2147483647
}

// The charge of the loan of x: a value of 1 to 3.5 balances, either set of coefficients, m from 0.40 to 3.00.
fn charge_of(x: u64, table: &Exponentials) -> LoanCharge
    requires { (x < 2147483647) × (table.now ≡ exponentials) }
{
    let balance = 100000000 + x % 100000000;
    let l = LoanInputs {
        value: balance + x / 8 % 250000000,
        over: balance,
        balance,
        months: 1 + x / 64 % 480,
        term: 1 + x / 8 % 120,
        supplement: true,
        factor: (40 + x % 261) * 1000000000000000,
    };
    loan_charge::charge::charge(l, table)
}

fn add(x: Signed, y: Signed) -> Signed {
    Signed {
        plus: x.plus.wrapping_add(y.plus),
        minus: x.minus.wrapping_add(y.minus),
    }
}

// The sums of the numbers of `count` loans.
fn charge_all(count: u64, table: &Exponentials) -> LoanCharge
    requires { table.now ≡ exponentials }
{
    let mut total = Signed { plus: 0, minus: 0 };
    let mut supplement = total;
    let mut x = 1;
    for _ in 0..count {
        let charge = charge_of(x, table);
        total = add(total, charge.total);
        supplement = add(supplement, charge.supplement);
        x = next(x);
    }
    LoanCharge { total, supplement }
}

fn main(rt: HostRuntime) {
    let mut buf = [0u8; cases::BLOCK];
    let size = cases::read_input(&mut rt.stdin(), &mut buf).unwrap_or(0);
    if size == 0 {
        return;
    }
    let mut cases = Cases { rest: &buf[..size] };
    let count = cases.number();
    let total = cases.range();
    let supplement = cases.range();
    let sums = charge_all(count, &loan_charge::charge::table());
    let ok = total.holds(sums.total) & supplement.holds(sums.supplement);
    let found = if ok {
        "both sums within"
    } else {
        "a sum outside"
    };
    let _ = println!(rt; "{count} loans, {found}");
}
