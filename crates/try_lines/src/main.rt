// Tries the line forms on the cases of standard input, `length feeding opening kind a b c d e f g h i line`, and prints
// each case whose answer is another. The two refusals are 0 where the line is accepted; the kind and the nine numbers
// are then what it holds, else 0. The line is as many bytes as its length says, whatever they are.
#![tactic(auto)]

ghost use Rattle.std.specs.Prelude.{◌-◌, ◌≤◌, length};

use cases::{Cases, Trial};
use line_forms::{Line, Loan};
use loan_charge::Score;
use std::io::Print;

// The number of a line's kind, and what the line holds; 0 for each value that its kind does not have.
#[derive(Clone, Copy, PartialEq)]
struct Reading {
    kind: u64,
    values: [u64; 9],
}

// A case without its line.
#[derive(Clone, Copy)]
struct Case {
    length: usize,
    feeding: u64,
    opening: u64,
    reading: Reading,
}

fn held<const N: usize>(kind: u64, first: [u64; N]) -> Reading
    requires { N ≤ 9 }
{
    let mut values = [0; 9];
    values[..N].copy_from_slice(&first);
    Reading { kind, values }
}

fn held_loan(l: Loan) -> Reading {
    let (kind, number, age) = match l.score {
        Score::Scored { number, age } => (1, number, age),
        Score::Unscored => (2, 0, 0),
    };
    let values = [
        l.balance,
        l.value,
        l.amortization,
        l.term,
        number,
        age,
        l.supplement,
        l.from,
        l.area,
    ];
    held(kind, values)
}

// What the line holds, or the number of its refusal.
fn fed(line: &[u8]) -> Result<Reading, u64> {
    let held = match line_reading::read_line(line) {
        Line::Loan(x) => held_loan(x),
        Line::Policy(x) => held(3, [x.class as u64, x.premium, x.term, x.completed]),
        Line::Derivative(x) => held(
            4,
            [
                x.kind as u64,
                x.cost.plus,
                x.cost.minus,
                x.notional,
                x.months,
                x.payments,
                x.factor,
            ],
        ),
        Line::Asset(x) => held(5, [x.amount, x.factor]),
        Line::Amount(x) => held(6, [x.item as u64, x.amount.plus, x.amount.minus]),
        Line::Index(x) => held(8, [x.area, x.month, x.value]),
        Line::Mark(x) => held(if x.back { 10 } else { 9 }, [x.name]),
        Line::Refusal(refusal) => return Err(refusal.number()),
    };
    Ok(held)
}

// The same of a header line.
fn opened(line: &[u8]) -> Result<Reading, u64> {
    match line_reading::read_header(line) {
        Ok(h) => Ok(held(7, [h.loans, h.unscored, h.fresh, h.held])),
        Err(refusal) => Err(refusal.number()),
    }
}

impl Case {
    fn expected(self, refusal: u64) -> Result<Reading, u64> {
        if refusal == 0 {
            Ok(self.reading)
        } else {
            Err(refusal)
        }
    }

    fn is_read(self, line: &[u8]) -> bool {
        (fed(line) == self.expected(self.feeding)) & (opened(line) == self.expected(self.opening))
    }
}

fn read_case(cases: &mut Cases) -> Case
    ensures { length cases.new.rest.now ≤ length cases.old.rest.now - 1 }
{
    let [length, feeding, opening, kind] = cases.numbers::<4>();
    Case {
        length: length as usize,
        feeding,
        opening,
        reading: Reading {
            kind,
            values: cases.numbers(),
        },
    }
}

// The trial of a case prints where its answer is another.
#[derive(Drop)]
struct Lines<'a, P> {
    out: &'a P,
}

impl<P: Print> Trial for Lines<'_, P> {
    fn is_within(&self, cases: &mut Cases) -> bool {
        let start = cases.rest;
        let case = read_case(cases);
        if cases.rest.len() <= case.length {
            cases.rest = &[];
            return false;
        }
        let (line, end) = cases.rest.split_at(case.length);
        cases.rest = &end[1..];
        let ok = case.is_read(line);
        let size = start.len() - end.len();
        cases::print_unless(self.out, ok, &start[..size]);
        ok
    }
}

fn main(rt: HostRuntime) {
    let tally = cases::try_all(&mut rt.stdin(), &rt, &Lines { out: &rt });
    cases::print_tally(&rt, tally);
}
