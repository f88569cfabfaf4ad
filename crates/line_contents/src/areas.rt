// The areas of the house price index by their names.
ghost use Rattle.std.specs.Prelude.{◌≡◌};
ghost use Rattle.line_forms.specs.Bytes.{same};
ghost use Rattle.line_forms.specs.Contents.{areas};
ghost use Rattle.line_forms.specs.Parsing.{letters_at, place_of, after_word};

use line_fields::Found;

// Whether a word is a name. Its length and its first letter tell most names apart.
fn is(w: &[u8], name: &[u8]) -> bool
    ensures { result ≡ same w.now name.now }
{
    let n = w.len();
    if n != name.len() {
        return false;
    }
    if n == 0 {
        return true;
    }
    if w[0] != name[0] {
        return false;
    }
    line_fields::same(w, name)
}

// The place of a word among the names, 12 where it is none of them.
fn place(w: &[u8]) -> u64
    ensures { result ≡ place_of w.now areas }
{
    if is(w, b"calgary") {
        return 0;
    }
    if is(w, b"edmonton") {
        return 1;
    }
    if is(w, b"halifax") {
        return 2;
    }
    if is(w, b"hamilton") {
        return 3;
    }
    if is(w, b"montreal") {
        return 4;
    }
    if is(w, b"ottawagatineau") {
        return 5;
    }
    if is(w, b"quebec") {
        return 6;
    }
    if is(w, b"toronto") {
        return 7;
    }
    if is(w, b"vancouver") {
        return 8;
    }
    if is(w, b"victoria") {
        return 9;
    }
    if is(w, b"winnipeg") {
        return 10;
    }
    if is(w, b"other") {
        return 11;
    }
    12
}

// The area at a position.
pub fn area_at(line: &[u8], at: usize) -> Found
    ensures { (result.value ≡ place_of (letters_at line.now at) areas) × (result.next ≡ after_word areas line.now at) }
{
    let w = line_fields::run(line, at, b'a', b'z');
    let value = place(w);
    if value < 12 {
        return Found {
            value,
            next: at + w.len(),
        };
    }
    Found {
        value,
        next: line.len() + 1,
    }
}
