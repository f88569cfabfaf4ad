// Why a line, an opening, a closing or a joining is turned down, and the number that a refusal is printed by.
ghost use Rattle.std.specs.Prelude.{◌≡◌};
ghost use Rattle.line_forms.specs.Refusals.{number_of};

// In the order of their numbers, from 1 on.
#[derive(Clone, Copy, Debug, PartialEq, Eq)]
pub enum Refusal {
    // The line is over 240 bytes.
    LongLine,
    // The line is of no form.
    NoForm,
    // A number of the line is out of its range.
    OutOfRange,
    // A header counts more loans without a score and with a fresh one than loans.
    OverCounted,
    // A loan is beyond what the header counts.
    LoanBeyond,
    // At a closing, loans that the header counts have not come.
    LoansMissing,
    // A header after the first line, or a first line that is none.
    Misplaced,
    // As many lines other than loans as a book takes have come.
    LinesFull,
    // The buffer is too small for the report.
    SmallBuffer,
    // The sheet of credit factors breaks a rule.
    BadSheet,
    // The value of the index for this area and month is there already.
    ValueSet,
    // A value of the index that the loan needs is not there.
    ValueLacking,
    // A mark of this name is kept already.
    MarkKept,
    // No place is free for another mark.
    MarksFull,
    // No mark of this name is kept.
    NoMark,
    // The books cannot be joined.
    NotJoinable,
}

impl Refusal {
    pub fn number(self) -> u64
        ensures { result ≡ number_of self }
    {
        match self {
            Refusal::LongLine => 1,
            Refusal::NoForm => 2,
            Refusal::OutOfRange => 3,
            Refusal::OverCounted => 4,
            Refusal::LoanBeyond => 5,
            Refusal::LoansMissing => 6,
            Refusal::Misplaced => 7,
            Refusal::LinesFull => 8,
            Refusal::SmallBuffer => 9,
            Refusal::BadSheet => 10,
            Refusal::ValueSet => 11,
            Refusal::ValueLacking => 12,
            Refusal::MarkKept => 13,
            Refusal::MarksFull => 14,
            Refusal::NoMark => 15,
            Refusal::NotJoinable => 16,
        }
    }
}
