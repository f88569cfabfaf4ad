// Reads the cases of a test from standard input, tries each, and prints how they came out.
#![tactic(auto)]

ghost use Rattle.std.specs.Prelude.{◌≡◌, ◌+◌, ◌-◌, ◌%◌, ◌^◌, ◌<◌, ◌≤◌, ◌&&◌, length, if◌then◌else◌, IfOk, ℕ, slice_index};
ghost use Rattle.cases.specs.Numbers.{number_in, after_number, after_numbers};
ghost use Rattle.cases.specs.Trials.{range_in, is_at_most};

use fixed_point::Signed;
use std::io;
use std::io::{Print, Read};

// Room for a block of the input.
pub const BLOCK: usize = 65536;

// What is left of a block of cases.
#[derive(Clone, Copy)]
pub struct Cases<'a> {
    pub rest: &'a [u8],
}

impl<'a> Cases<'a> {
    // The decimal number that comes next, which ends before the first byte that is no digit; that byte is passed too.
    // 0 at the end of the input, and the largest number where it does not fit.
    #[tactic(auto, using(crate::proofs::Numbers::shorter))]
    pub fn number(&mut self) -> u64
        ensures value { result ≡ number_in self.old.rest.now }
        ensures passed { self.new.rest.now ≡ after_number self.old.rest.now }
        ensures shorter { length self.new.rest.now ≤ length self.old.rest.now - 1 }
    {
        let mut rest = self.rest;
        let mut value = 0u64;
        while let Some((b, more)) = rest.split_first() {
            rest = more;
            if !b.is_ascii_digit() {
                break;
            }
            value = value.saturating_mul(10).saturating_add((*b - b'0') as u64);
        }
        self.rest = rest;
        value
    }

    // So many numbers.
    #[tactic(auto, using(crate::proofs::Numbers::shorter_by))]
    pub fn numbers<const N: usize>(&mut self) -> [u64; N]
        ensures values { (k : ℕ) → k < N → slice_index result k ≡ number_in (after_numbers k self.old.rest.now) }
        ensures passed { self.new.rest.now ≡ after_numbers N self.old.rest.now }
        ensures shorter { length self.new.rest.now ≤ length self.old.rest.now - N }
    {
        let mut numbers = [0; N];
        for number in &mut numbers {
            *number = self.number();
        }
        numbers
    }

    // Four numbers: what is above 0 and what is below, of the least and of the greatest number allowed.
    pub fn range(&mut self) -> Range
        ensures value { result ≡ range_in self.old.rest.now }
        ensures passed { self.new.rest.now ≡ after_numbers 4 self.old.rest.now }
        ensures shorter { length self.new.rest.now ≤ length self.old.rest.now - 4 }
    {
        let [a, b, c, d] = self.numbers::<4>();
        Range {
            least: Signed { plus: a, minus: b },
            greatest: Signed { plus: c, minus: d },
        }
    }
}

// The least and the greatest number allowed.
#[derive(Clone, Copy)]
pub struct Range {
    pub least: Signed,
    pub greatest: Signed,
}

impl Range {
    pub fn holds(self, x: Signed) -> bool
        ensures { result ≡ (is_at_most self.least x && is_at_most x self.greatest) }
    {
        is_at_most(self.least, x) & is_at_most(x, self.greatest)
    }
}

// Whether x is at most y; false where a part of one reaches 2^62.
fn is_at_most(x: Signed, y: Signed) -> bool
    ensures { result ≡ is_at_most x y }
{
    let most = x.plus.max(x.minus).max(y.plus).max(y.minus);
    most < 4611686018427387904 && x.plus + y.minus <= y.plus + x.minus
}

// How many cases came out as they should, and how many not.
#[derive(Clone, Copy, Default)]
pub struct Tally {
    pub within: u64,
    pub outside: u64,
}

impl Tally {
    // One case more.
    pub fn count(&mut self, ok: bool)
        ensures within { self.new.within ≡ (if ok then (self.old.within + 1) % 2 ^ 64 else self.old.within) }
        ensures outside { self.new.outside ≡ (if ok then self.old.outside else (self.old.outside + 1) % 2 ^ 64) }
    {
        if ok {
            self.within = self.within.wrapping_add(1);
        } else {
            self.outside = self.outside.wrapping_add(1);
        }
    }
}

// Reads into `buf` until it is full or the input ends, and tells how many bytes it read.
pub fn read_input(input: &mut impl Read, buf: &mut [u8]) -> io::Result<usize>
    ensures count { IfOk result (λ n. n ≤ length buf.new) }
    ensures room { length buf.new ≡ length buf.old }
{
    let mut at = 0;
    while at < buf.len() {
        let count = input.read(&mut buf[at..])?;
        if count == 0 {
            break;
        }
        at += count;
    }
    Ok(at)
}

// A test of cases. A trait and no closure, whose bound could not name a type that holds a reference; each trial takes a byte, so that all end.
pub trait Trial {
    // Takes a case from the front, and tells whether it came out as it should.
    fn is_within(&self, cases: &mut Cases) -> bool
        requires { 0 < length cases.old.rest.now }
        ensures { length cases.new.rest.now < length cases.old.rest.now };
}

// Tries the cases of a block.
fn try_block(block: &[u8], trial: &impl Trial, before: Tally) -> Tally {
    let mut tally = before;
    let mut cases = Cases { rest: block };
    while !cases.rest.is_empty() {
        tally.count(trial.is_within(&mut cases));
    }
    tally
}

// Tries the cases of the input, which is read by blocks, each of whole cases.
// Nothing says that the input ends, so the blocks are counted, up to a number that no run uses up.
pub fn try_all(input: &mut impl Read, out: &impl Print, trial: &impl Trial) -> Tally {
    let mut tally = Tally::default();
    for _ in 0..u64::MAX {
        let mut buf = [0; BLOCK];
        match read_input(input, &mut buf) {
            Ok(0) => break,
            Ok(count) => tally = try_block(&buf[..count], trial, tally),
            Err(_) => {
                put(out, b"read failed\n");
                break;
            }
        }
    }
    tally
}

// Prints the bytes. A test is judged by what it printed, so it goes on where nothing can be written.
pub fn put(out: &impl Print, bytes: &[u8]) {
    let _ = out.write_all(bytes);
}

// The same of a number, in decimal digits.
pub fn put_number(out: &impl Print, n: u64) {
    let _ = out.print(n);
}

// Prints the case, unless it came out as it should.
pub fn print_unless(out: &impl Print, ok: bool, case: &[u8]) {
    if !ok {
        put(out, b"outside ");
        put(out, case);
    }
}

// The last line of a test's output.
pub fn print_tally(out: &impl Print, t: Tally) {
    let _ = println!(out; "{} within, {} outside", t.within, t.outside);
}
