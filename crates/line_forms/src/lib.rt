// What a line holds, and the range of each number (01, "A book, line by line"). specs/ has the forms and what reading a line answers.
#![tactic(auto)]

pub mod ranges;
mod refusal;

ghost use Rattle.std.specs.Prelude.{◌≡◌};
ghost use Rattle.line_forms.specs.Contents.{on_aged_table_lem};

use fixed_point::Signed;
use loan_charge::Score;
pub use refusal::Refusal;

// A longer line is refused as 1.
pub const LONGEST_LINE: usize = 240;

// The counts of loans, of loans without a score and of loans with a fresh one, and the liabilities held for home loans in cents.
#[derive(Clone, Copy, Default)]
pub struct Header {
    pub loans: u64,
    pub unscored: u64,
    pub fresh: u64,
    pub held: u64,
}

// Balance and property value in cents, remaining amortization and insurance term in months; supplement is 1 where it applies, else 0;
// the month as YYYYMM, and the area's place in the list of names.
#[derive(Clone, Copy)]
pub struct Loan {
    pub balance: u64,
    pub value: u64,
    pub amortization: u64,
    pub term: u64,
    pub score: Score,
    pub supplement: u64,
    pub from: u64,
    pub area: u64,
}

// A value of the house price index: the area's place in the list of names, the month as YYYYMM, the value in hundredths.
#[derive(Clone, Copy)]
pub struct IndexValue {
    pub area: u64,
    pub month: u64,
    pub value: u64,
}

// A mark that keeps the book under a name, or a return to it; the name as a number.
#[derive(Clone, Copy)]
pub struct MarkLine {
    pub back: bool,
    pub name: u64,
}

#[derive(Clone, Copy)]
pub enum Class {
    Home,
    Multi,
}

// Premium in cents, original term in months, completed years.
#[derive(Clone, Copy)]
pub struct Policy {
    pub class: Class,
    pub premium: u64,
    pub term: u64,
    pub completed: u64,
}

// Float is a single-currency floating/floating swap; fx includes gold.
#[derive(Clone, Copy)]
pub enum Kind {
    Rate,
    Float,
    Fx,
    Equity,
    Metal,
    Other,
}

// Replacement cost and notional in cents, months to run, remaining payments, the counterparty's factor in ten-thousandths.
#[derive(Clone, Copy)]
pub struct Derivative {
    pub kind: Kind,
    pub cost: Signed,
    pub notional: u64,
    pub months: u64,
    pub payments: u64,
    pub factor: u64,
}

// Amount in cents, factor in ten-thousandths.
#[derive(Clone, Copy)]
pub struct Asset {
    pub amount: u64,
    pub factor: u64,
}

// Multi-unit incurred claims and loss components, a stated charge, and the parts of capital.
#[derive(Clone, Copy)]
pub enum Item {
    Claims,
    Lossc,
    Stated,
    Equity,
    Aoci,
    B,
    C,
}

// An amount in cents; only equity and aoci may be negative.
#[derive(Clone, Copy)]
pub struct Amount {
    pub item: Item,
    pub amount: Signed,
}

// What a line holds, whatever the ranges of its numbers.
#[derive(Clone, Copy)]
pub enum Content {
    Header(Header),
    Loan(Loan),
    Policy(Policy),
    Derivative(Derivative),
    Asset(Asset),
    Amount(Amount),
    Index(IndexValue),
    Mark(MarkLine),
    NoForm,
}

// The answer for a line after the header.
#[derive(Clone, Copy)]
pub enum Line {
    Loan(Loan),
    Policy(Policy),
    Derivative(Derivative),
    Asset(Asset),
    Amount(Amount),
    Index(IndexValue),
    Mark(MarkLine),
    Refusal(Refusal),
}

// Whether the aged table serves for a book's scores. Nine tenths of the loans, rounded up, are the loans less a tenth, rounded down: so
// nothing passes 64 bits, whatever the counts.
pub fn on_aged_table(h: Header) -> bool
    ensures { result ≡ on_aged_table_lem h }
{
    h.fresh < h.loans - h.loans / 10
}
