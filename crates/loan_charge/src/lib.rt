// The capital charge of a home loan (document 01, "The loan charge"; source document 000, 1.1.2 to 1.1.5).
#![tactic(auto)]

pub mod charge; // a loan's two numbers in fixed point
pub mod credit; // the adjustment factor for credit quality of 000, 1.1.4

// A borrower's credit score: its number and its age in months, or none.
#[derive(Clone, Copy)]
pub enum Score {
    Scored { number: u64, age: u64 },
    Unscored,
}

// What a loan's charge is computed from: value over balance as the fraction value / over, the balance in cents, the remaining
// amortization and the insurance term in months, whether the supplement applies, and m in 10^-17.
#[derive(Clone, Copy)]
pub struct LoanInputs {
    pub value: u64,
    pub over: u64,
    pub balance: u64,
    pub months: u64,
    pub term: u64,
    pub supplement: bool,
    pub factor: u64,
}
