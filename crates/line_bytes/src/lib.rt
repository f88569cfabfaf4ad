// The bytes of a line: where it ends in a part of the input, and what is held of a line not yet ended.
#![tactic(auto)]

pub mod newlines;

ghost use Rattle.std.specs.Prelude.{◌≡◌, ℕ, ◌-◌, ◌≤◌, ◌==◌, List, [], ◌∷◌, ◌++◌, length, take, drop, replicate};
ghost use Rattle.line_bytes.specs.LineBytes.{newline, most_held, with_tail};

use std::marker::Model;

// So many bytes of a line not yet ended are held: beyond 240 a line is refused whatever they are.
const MOST_HELD: usize = 241;

// Room for them and for the newline that ends the line.
pub const TAIL: usize = 242;

// Bytes are added to a line not yet ended, at the start of a buffer. What lies after them in it stays.
pub fn hold(tail: &mut [u8], held: usize, bytes: &[u8]) -> usize
    requires { (held ≤ most_held) × (length tail.old ≡ 242) }
    ensures equation { take result tail.new ≡ with_tail (take held tail.old) bytes.now }
    ensures few { (held ≤ result) × (result ≤ most_held) }
    ensures rest { drop result tail.new ≡ drop result tail.old }
{
    let n = bytes.len().min(MOST_HELD - held);
    tail[held..held + n].copy_from_slice(&bytes[..n]);
    held + n
}

// What is held of a line not yet ended. In the buffer newlines stand after it, so that the bytes that are held tell all of it.
#[derive(Clone, Copy)]
pub struct Tail {
    bytes: [u8; TAIL],
    held: usize,
}

// Clauses see the bytes that are held.
impl Model for Tail {
    ghost use Rattle.std.specs.Prelude.{◌≡◌, ℕ, ◌-◌, ◌≤◌, List, ◌++◌, length, take, drop, replicate};
    ghost use Rattle.line_bytes.specs.LineBytes.{newline, most_held};
    ghost use Rattle.std.proofs.Common.{arith, ap, sym, ◌∙◌, take-append-drop, length-take-le};
    ghost use Rattle.std.proofs.lemmas.List.{length-drop, length-replicate};

    ghost Value = { List ℕ };

    ghost view = { λ t. take t.held t.bytes };

    ghost inverse = { λ line. record { bytes = line ++ replicate (242 - length line) newline; held = length line } };

    ghost invariant = { λ t. (t.held ≤ most_held) × (drop t.held t.bytes ≡ replicate (242 - t.held) newline) };

    ghost inverse_ok = { λ t h i.
        let room : length t.bytes - t.held ≡ 242 - t.held = sym (length-drop t.held t.bytes) ∙ ap length h.1 ∙ length-replicate (242 - t.held) newline in
        let size : length (take t.held t.bytes) ≡ t.held = length-take-le t.held t.bytes (omega (arith, h.0, room)) in
        record {
          bytes = (ap (λ (n : ℕ). take t.held t.bytes ++ replicate (242 - n) newline) size
              ∙ ap (λ (rest : List ℕ). take t.held t.bytes ++ rest) (sym h.1) ∙ take-append-drop t.held t.bytes) i;
          held = size i;
        } };
}

impl Tail {
    pub fn new() -> Self
        ensures { result ≡ [] }
    {
        Tail {
            bytes: [b'\n'; TAIL],
            held: 0,
        }
    }

    pub fn len(&self) -> usize
        ensures length { result ≡ length self.now }
        ensures few { length self.now ≤ most_held }
    {
        self.held
    }

    pub fn is_empty(&self) -> bool
        ensures empty { result ≡ (length self.now == 0) }
        ensures few { length self.now ≤ most_held }
    {
        self.held == 0
    }

    // Nothing is held any more.
    pub fn clear(&mut self)
        ensures { self.new ≡ [] }
    {
        self.bytes = [b'\n'; TAIL];
        self.held = 0;
    }

    // Bytes are added to the line.
    pub fn hold(&mut self, bytes: &[u8])
        ensures { self.new ≡ with_tail self.old bytes.now }
    {
        self.held = hold(&mut self.bytes, self.held, bytes);
    }

    // The line, ended by a newline.
    pub fn ended(&self) -> &[u8]
        ensures line { result.now ≡ self.now ++ newline ∷ [] }
        ensures few { length self.now ≤ most_held }
    {
        &self.bytes[..=self.held]
    }
}
