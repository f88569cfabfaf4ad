// Tries the loan charge and the credit factors on the cases of standard input, and prints each case whose answer lies
// outside. A case is a line of numbers, of which the first tells its kind:
// 1 p q balance months term sup m, and the range of the total and of the supplement
// 2 scored number age aged loans unscored, and m
#![tactic(auto)]

ghost use Rattle.std.specs.Prelude.{◌≡◌, ◌≤◌, length};
ghost use Rattle.loan_charge.specs.Tables.{exponentials};

use cases::{Cases, Trial};
use fixed_point::Signed;
use loan_charge::charge::{Exponentials, LoanCharge};
use loan_charge::credit::Rates;
use loan_charge::{LoanInputs, Score};
use std::io::Print;

// Loans and factors by the tables.
#[derive(Drop)]
struct Charges<'a, P> {
    out: &'a P,
    table: &'a Exponentials,
    rates: &'a Rates,
    ghost listed: { table.now ≡ exponentials },
}

impl<P: Print> Trial for Charges<'_, P> {
    fn is_within(&self, cases: &mut Cases) -> bool {
        let start = cases.rest;
        let ok = if cases.number() == 1 {
            is_charge_within(self.out, cases, self.table)
        } else {
            is_factor(cases, self.rates)
        };
        let size = start.len() - cases.rest.len();
        cases::print_unless(self.out, ok, &start[..size]);
        ok
    }
}

// A loan and the ranges of its two numbers.
fn is_charge_within(out: &impl Print, cases: &mut Cases, table: &Exponentials) -> bool
    requires { table.now ≡ exponentials }
    ensures { length cases.new.rest.now ≤ length cases.old.rest.now }
{
    let loan = read_loan(cases);
    let total = cases.range();
    let supplement = cases.range();
    let got = charge_of(loan, table);
    let ok = total.holds(got.total) & supplement.holds(got.supplement);
    if !ok {
        print_signed(out, got.total);
        print_signed(out, got.supplement);
    }
    ok
}

fn read_loan(cases: &mut Cases) -> LoanInputs
    ensures { length cases.new.rest.now ≤ length cases.old.rest.now }
{
    let [value, over, balance, months, term, supplement, factor] = cases.numbers::<7>();
    LoanInputs {
        value,
        over,
        balance,
        months,
        term,
        supplement: supplement == 1,
        factor,
    }
}

// A case out of the layer's range has an answer that lies outside any range of numbers.
fn charge_of(l: LoanInputs, table: &Exponentials) -> LoanCharge
    requires { table.now ≡ exponentials }
{
    let has_ratio = (1 <= l.over) & (l.over <= 20000000000000000) & (l.balance <= 200000000);
    let has_months = (1 <= l.months) & (l.months <= 480);
    if has_ratio & has_months & (l.factor <= 300000000000000000) {
        loan_charge::charge::charge(l, table)
    } else {
        let outside = Signed {
            plus: u64::MAX,
            minus: 0,
        };
        LoanCharge {
            total: outside,
            supplement: outside,
        }
    }
}

fn print_signed(out: &impl Print, x: Signed) {
    let _ = print!(out; "{} - {}; ", x.plus, x.minus);
}

fn is_factor(cases: &mut Cases, rates: &Rates) -> bool
    ensures { length cases.new.rest.now ≤ length cases.old.rest.now }
{
    let [scored, number, age, aged, loans, unscored, factor] = cases.numbers::<7>();
    let score = if scored == 1 {
        Score::Scored { number, age }
    } else {
        Score::Unscored
    };
    factor == loan_charge::credit::credit_factor(score, aged == 1, loans, unscored, rates)
}

fn main(rt: HostRuntime) {
    let table = loan_charge::charge::table();
    let rates = sheet::built_in_rates();
    let charges = Charges {
        out: &rt,
        table: &table,
        rates: &rates,
    };
    let tally = cases::try_all(&mut rt.stdin(), &rt, &charges);
    cases::print_tally(&rt, tally);
}
