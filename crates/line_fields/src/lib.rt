// Readers of a field: a text, a run of bytes, a number, a word, a name.
#![tactic(auto)]

ghost use Rattle.std.specs.Prelude.{◌≡◌, ◌-◌, ◌≤◌, ◌<◌, true, ◌&&◌, eqb, ltb, length, drop, get_or};
ghost use Rattle.line_forms.specs.Bytes.{same as sameBytes, stands_at, after, past, run_of, within, all_within};
ghost use Rattle.line_forms.specs.Forms.{choices_of};
ghost use Rattle.line_forms.specs.Numerals.{value_from};
ghost use Rattle.line_forms.specs.Parsing.{digits_at, number_at, after_number, minus_at_lem, signed_at_lem, after_signed, negative_at_lem, after_negative, place_of};
ghost use Rattle.line_forms.specs.Parsing.{after_word, letters_at, score_at_lem, after_score, name_at, after_name};
ghost use Rattle.line_fields.specs.Numbers.{number_from, Written};

use fixed_point::Signed;
use loan_charge::Score;

// The most digits of a D.
const MOST_DIGITS: usize = 14;

// The most letters of a name.
const MOST_LETTERS: usize = 12;

// A field's value and the position after it; past the end of the line where the field does not stand there.
#[derive(Clone, Copy)]
pub struct Found {
    pub value: u64,
    pub next: usize,
}

#[derive(Clone, Copy)]
pub struct FoundScore {
    pub score: Score,
    pub next: usize,
}

#[derive(Clone, Copy)]
pub struct FoundSigned {
    pub amount: Signed,
    pub next: usize,
}

fn wide(b: u8) -> u64
    ensures { (result ≡ b) × (result ≤ 255) }
{
    b as u64
}

// Whether low ≤ b ≤ high.
fn inside(b: u8, low: u8, high: u8) -> bool
    ensures { result ≡ within low high b }
{
    (low <= b) & (b <= high)
}

// Whether two byte strings are the same.
pub fn same(a: &[u8], b: &[u8]) -> bool
    ensures { result ≡ sameBytes a.now b.now }
{
    if a.len() != b.len() {
        return false;
    }
    let mut all = true;
    let mut i = 0;
    while i < b.len() {
        all = all & (a[i] == b[i]);
        i += 1;
    }
    all
}

// Whether the text stands at a position. Nothing is left early, so that the compiler compares eight bytes at once.
pub fn stands(line: &[u8], at: usize, text: &[u8]) -> bool
    ensures { result ≡ stands_at line.now at text.now }
{
    let size = line.len();
    let n = text.len();
    if size < at {
        return false;
    }
    if size - at < n {
        return false;
    }
    let end = at + n;
    same(&line[at..end], text)
}

// The position after the text where it stands at `at`, else past the end.
pub fn skip(line: &[u8], at: usize, text: &[u8]) -> usize
    ensures { result ≡ after line.now at text.now }
{
    if stands(line, at, text) {
        return at + text.len();
    }
    line.len() + 1
}

// The field reader: the bytes from `at` on that lie between low and high, as a part of the caller's line.
pub fn run(line: &[u8], at: usize, low: u8, high: u8) -> &[u8]
    ensures { result.now ≡ run_of low high (drop at line.now) }
{
    if line.len() < at {
        return &line[0..0];
    }
    let mut end = at;
    while end < line.len() {
        if !inside(line[end], low, high) {
            return &line[at..end];
        }
        end += 1;
    }
    &line[at..end]
}

fn digit(b: u8) -> bool
    ensures { result ≡ within 48 57 b }
{
    inside(b, b'0', b'9')
}

fn all_digits(part: &[u8]) -> bool
    ensures { result ≡ all_within 48 57 part.now }
{
    let mut all = true;
    let mut i = 0;
    while i < part.len() {
        all = all & digit(part[i]);
        i += 1;
    }
    all
}

// The field reader where one to three digits are likely: the same part of the line, with no loop for so few.
fn few_digits(line: &[u8], at: usize) -> &[u8]
    ensures { result.now ≡ digits_at line.now at }
{
    let size = line.len();
    if size <= at {
        return run(line, at, b'0', b'9');
    }
    if size - at <= 2 {
        return run(line, at, b'0', b'9');
    }
    if !digit(line[at]) {
        return run(line, at, b'0', b'9');
    }
    let one = at + 1;
    if !digit(line[one]) {
        return &line[at..one];
    }
    let two = at + 2;
    if !digit(line[two]) {
        return &line[at..two];
    }
    if size - at == 3 {
        return run(line, at, b'0', b'9');
    }
    let three = at + 3;
    if !digit(line[three]) {
        return &line[at..three];
    }
    run(line, at, b'0', b'9')
}

// The field reader where eight or nine digits are likely: eight are tested at once.
fn many_digits(line: &[u8], at: usize) -> &[u8]
    ensures { result.now ≡ digits_at line.now at }
{
    let size = line.len();
    if size <= at {
        return run(line, at, b'0', b'9');
    }
    if size - at <= 9 {
        return run(line, at, b'0', b'9');
    }
    let eight = at + 8;
    if !all_digits(&line[at..eight]) {
        return run(line, at, b'0', b'9');
    }
    if !digit(line[eight]) {
        return &line[at..eight];
    }
    let nine = at + 9;
    if !digit(line[nine]) {
        return &line[at..nine];
    }
    run(line, at, b'0', b'9')
}

// The field reader where six digits are likely: they are tested at once.
fn six_digits(line: &[u8], at: usize) -> &[u8]
    ensures { result.now ≡ digits_at line.now at }
{
    let size = line.len();
    if size <= at {
        return run(line, at, b'0', b'9');
    }
    if size - at <= 6 {
        return run(line, at, b'0', b'9');
    }
    let six = at + 6;
    if !all_digits(&line[at..six]) {
        return run(line, at, b'0', b'9');
    }
    if !digit(line[six]) {
        return &line[at..six];
    }
    run(line, at, b'0', b'9')
}

// How far the byte at a place lies above `before`.
fn worth_at(part: &[u8], i: usize, before: u8) -> u64
    requires { (i < length part.now) × (before ≤ get_or part.now i 0) }
    ensures { (result ≡ get_or part.now i 0 - before) × (result ≤ 255) }
{
    wide(part[i] - before)
}

// The number that bytes write in a base, each worth how far it lies above `before`, at most the base.
fn number_of(part: &[u8], base: u64, before: u8) -> u64
    requires { Written base before part.now }
    ensures { result ≡ number_from base before 0 part.now }
{
    let mut value: u64 = 0;
    let mut i = 0;
    while i < part.len() {
        value = value * base + worth_at(part, i, before);
        i += 1;
    }
    value
}

// The value of one to three digits, with no loop.
fn few_value(digits: &[u8]) -> u64
    requires { (all_within 48 57 digits.now ≡ true) × (0 < length digits.now) × (length digits.now ≤ 3) }
    ensures { result ≡ value_from 0 digits.now }
{
    let one = worth_at(digits, 0, b'0');
    if digits.len() == 1 {
        return one;
    }
    let two = one * 10 + worth_at(digits, 1, b'0');
    if digits.len() == 2 {
        return two;
    }
    two * 10 + worth_at(digits, 2, b'0')
}

// Whether more than one digit stands and the first is a 0. One digit is told by its count alone, which is the soonest way to read it.
fn zero_first(digits: &[u8]) -> bool
    ensures { result ≡ (eqb (get_or digits.now 0 0) 48 && ltb 1 (length digits.now)) }
{
    if digits.len() <= 1 {
        return false;
    }
    digits[0] == b'0'
}

// The number reader: what the digits at a position, a part of the line, say as a D.
fn number(line: &[u8], at: usize, digits: &[u8]) -> Found
    requires { digits.now ≡ digits_at line.now at }
    ensures { (result.value ≡ number_at line.now at) × (result.next ≡ after_number line.now at) }
{
    let n = digits.len();
    if (n == 0) | (MOST_DIGITS < n) {
        return missing(line);
    }
    if zero_first(digits) {
        return missing(line);
    }
    if n <= 3 {
        return Found {
            value: few_value(digits),
            next: at + n,
        };
    }
    Found {
        value: number_of(digits, 10, b'0'),
        next: at + n,
    }
}

fn missing(line: &[u8]) -> Found
    ensures { (result.value ≡ 0) × (result.next ≡ past line.now) }
{
    Found {
        value: 0,
        next: line.len() + 1,
    }
}

// The D at a position, of any length.
pub fn number_at(line: &[u8], at: usize) -> Found
    ensures { (result.value ≡ number_at line.now at) × (result.next ≡ after_number line.now at) }
{
    number(line, at, run(line, at, b'0', b'9'))
}

// The same, soonest where one to three digits stand.
pub fn short_at(line: &[u8], at: usize) -> Found
    ensures { (result.value ≡ number_at line.now at) × (result.next ≡ after_number line.now at) }
{
    number(line, at, few_digits(line, at))
}

// The same, soonest where eight or nine digits stand.
pub fn long_at(line: &[u8], at: usize) -> Found
    ensures { (result.value ≡ number_at line.now at) × (result.next ≡ after_number line.now at) }
{
    number(line, at, many_digits(line, at))
}

// The same, soonest where six digits stand.
pub fn six_at(line: &[u8], at: usize) -> Found
    ensures { (result.value ≡ number_at line.now at) × (result.next ≡ after_number line.now at) }
{
    number(line, at, six_digits(line, at))
}

// A D after a text.
pub fn number_after(line: &[u8], at: usize, text: &[u8]) -> Found
    ensures { (result.value ≡ number_at line.now (after line.now at text.now)) ×
        (result.next ≡ after_number line.now (after line.now at text.now)) }
{
    number_at(line, skip(line, at, text))
}

// An S after a text.
pub fn signed_after(line: &[u8], at: usize, text: &[u8]) -> FoundSigned
    ensures { (result.amount ≡ signed_at_lem line.now (after line.now at text.now)) ×
        (result.next ≡ after_signed line.now (after line.now at text.now)) }
{
    signed_at(line, skip(line, at, text))
}

// Whether a minus sign stands at a position.
fn minus_at(line: &[u8], at: usize) -> bool
    ensures { result ≡ minus_at_lem line.now at }
{
    if at < line.len() {
        line[at] == b'-'
    } else {
        false
    }
}

// The S at a position.
pub fn signed_at(line: &[u8], at: usize) -> FoundSigned
    ensures { (result.amount ≡ signed_at_lem line.now at) × (result.next ≡ after_signed line.now at) }
{
    if minus_at(line, at) {
        return negative_at(line, at + 1);
    }
    let n = number_at(line, at);
    FoundSigned {
        amount: Signed {
            plus: n.value,
            minus: 0,
        },
        next: n.next,
    }
}

// A non-zero D, taken as negative.
fn negative_at(line: &[u8], at: usize) -> FoundSigned
    ensures { (result.amount ≡ negative_at_lem line.now at) × (result.next ≡ after_negative line.now at) }
{
    let n = number_at(line, at);
    let amount = Signed {
        plus: 0,
        minus: n.value,
    };
    if n.value == 0 {
        return FoundSigned {
            amount,
            next: line.len() + 1,
        };
    }
    FoundSigned {
        amount,
        next: n.next,
    }
}

// The word at a position, with its place among the choices that upright bars separate.
pub fn word_at(line: &[u8], at: usize, choices: &[u8]) -> Found
    ensures { (result.value ≡ place_of (letters_at line.now at) (choices_of choices.now)) ×
        (result.next ≡ after_word (choices_of choices.now) line.now at) }
{
    let w = run(line, at, b'a', b'z');
    let mut place: u64 = 0;
    let mut i = 0;
    while i <= choices.len() {
        let choice = run(choices, i, 0, b'{');
        if same(w, choice) {
            return Found {
                value: place,
                next: at + w.len(),
            };
        }
        i = i + choice.len() + 1;
        place += 1;
    }
    Found {
        value: place,
        next: line.len() + 1,
    }
}

// One of the choices after a text.
pub fn word_after(line: &[u8], at: usize, text: &[u8], choices: &[u8]) -> Found
    ensures { (result.value ≡ place_of (letters_at line.now (after line.now at text.now)) (choices_of choices.now)) ×
        (result.next ≡ after_word (choices_of choices.now) line.now (after line.now at text.now)) }
{
    word_at(line, skip(line, at, text), choices)
}

// The score at a position, with its age, or the word `none`.
pub fn score_at(line: &[u8], at: usize) -> FoundScore
    ensures { (result.score ≡ score_at_lem line.now at) × (result.next ≡ after_score line.now at) }
{
    let number = short_at(line, at);
    if stands(line, number.next, b" ") {
        let age = short_at(line, number.next + 1);
        return FoundScore {
            score: Score::Scored {
                number: number.value,
                age: age.value,
            },
            next: age.next,
        };
    }
    let word = run(line, at, b'a', b'z');
    if same(word, b"none") {
        return FoundScore {
            score: Score::Unscored,
            next: at + word.len(),
        };
    }
    FoundScore {
        score: Score::Scored {
            number: number.value,
            age: 0,
        },
        next: line.len() + 1,
    }
}

// The name at a position, as its number: a is worth 1.
pub fn name_at(line: &[u8], at: usize) -> Found
    ensures { (result.value ≡ name_at line.now at) × (result.next ≡ after_name line.now at) }
{
    let letters = run(line, at, b'a', b'z');
    let n = letters.len();
    if (1 <= n) & (n <= MOST_LETTERS) {
        return Found {
            value: number_of(letters, 26, 96),
            next: at + n,
        };
    }
    missing(line)
}
