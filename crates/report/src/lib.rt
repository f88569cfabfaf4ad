// Lines of decimal numbers, written into a buffer that the caller lends. A function `put_..` writes from the buffer's start, tells how many bytes it
// wrote, and leaves the bytes after them; an `add_..` goes on after the first `at` bytes, and lends what remains of the buffer to the other.
#![tactic(auto)]

ghost use Rattle.std.specs.Prelude.{[], ◌∷◌, ◌++◌, ◌+◌, ◌≤◌, length, map, sum_by};
ghost use Rattle.std.specs.List.{flat_map};
ghost use Rattle.exact.specs.Text.{text};
ghost use Rattle.report.specs.Decimal.{digits, signed};
ghost use Rattle.report.specs.Fields.{field_text};
ghost use Rattle.report.specs.Line.{line, refusal_line, Written, Added};

use fixed_point::Signed;
use itoa::Buffer;

// A field of a line: a number without a sign, a number with one, or a word.
#[derive(Clone, Copy)]
pub enum Field<'a> {
    Count(u64),
    Number(Signed),
    Word(&'a [u8]),
}

pub fn put_bytes(out: &mut [u8], s: &[u8]) -> usize
    requires { length s.now ≤ length out.old }
    ensures { Written out.old s.now result out.new }
{
    out[..s.len()].copy_from_slice(s);
    s.len()
}

fn put_number(out: &mut [u8], n: u64) -> usize
    requires { length (digits n) ≤ length out.old }
    ensures { Written out.old (digits n) result out.new }
{
    put_bytes(out, Buffer::new().format(n).as_bytes())
}

fn put_signed(out: &mut [u8], value: Signed) -> usize
    requires { length (signed value) ≤ length out.old }
    ensures { Written out.old (signed value) result out.new }
{
    if value.plus < value.minus {
        let at = put_bytes(out, b"-");
        at + put_number(&mut out[at..], value.minus - value.plus)
    } else {
        put_number(out, value.plus - value.minus)
    }
}

fn put_text(out: &mut [u8], field: Field) -> usize
    requires { length (field_text field) ≤ length out.old }
    ensures { Written out.old (field_text field.entry) result out.new }
{
    match field {
        Field::Count(n) => put_number(out, n),
        Field::Number(value) => put_signed(out, value),
        Field::Word(word) => put_bytes(out, word),
    }
}

// A space, and a field after it.
fn put_field(out: &mut [u8], field: Field) -> usize
    requires { length (text " " ++ field_text field) ≤ length out.old }
    ensures { Written out.old (text " " ++ field_text field.entry) result out.new }
{
    let at = put_bytes(out, b" ");
    at + put_text(&mut out[at..], field)
}

// A space and a number with its sign after the first `at` bytes.
pub fn add_value(out: &mut [u8], at: usize, value: Signed) -> usize
    requires { at + 22 ≤ length out.old }
    ensures value { Added out.old at (text " " ++ signed value) result out.new }
    ensures short { result ≤ at + 22 }
{
    at + put_field(&mut out[at..], Field::Number(value))
}

// The same for a number that has no sign.
pub fn add_number(out: &mut [u8], at: usize, n: u64) -> usize
    requires { at + 22 ≤ length out.old }
    ensures number { Added out.old at (text " " ++ digits n) result out.new }
    ensures short { result ≤ at + 22 }
{
    let value = Signed { plus: n, minus: 0 };
    add_value(out, at, value)
}

// A line with a name and fields, as `(rest 451)` or `(ratio none)`.
pub fn put_line(out: &mut [u8], name: &[u8], fields: &[Field]) -> usize
    requires { length (line name.now (map field_text fields.now)) ≤ length out.old }
    ensures { Written out.old (line name.now (map field_text fields.now)) result out.new }
{
    let mut at = put_bytes(out, b"(");
    at += put_bytes(&mut out[at..], name);
    for field in fields {
        at += put_field(&mut out[at..], *field);
    }
    at + put_bytes(&mut out[at..], b")\n")
}

// The line of a number, which has at most 21 bytes.
fn put_value(out: &mut [u8], name: &[u8], value: Signed) -> usize
    requires { length name.now + 25 ≤ length out.old }
    ensures line { Written out.old (line name.now (signed value ∷ [])) result out.new }
    ensures short { result ≤ length name.now + 25 }
{
    put_line(out, name, &[Field::Number(value)])
}

// A line for each name and number.
pub fn put_lines(out: &mut [u8], lines: &[(&[u8], Signed)]) -> usize
    requires { sum_by (λ l. length l.0.now + 25) lines.now ≤ length out.old }
    ensures lines { Written out.old (flat_map (λ l. line l.0.now (signed l.1 ∷ [])) lines.now) result out.new }
    ensures short { result ≤ sum_by (λ l. length l.0.now + 25) lines.now }
{
    let mut at = 0;
    for (name, value) in lines {
        at += put_value(&mut out[at..], name, *value);
    }
    at
}

// The line `(refused N L)`.
pub fn put_refusal(out: &mut [u8], refusal: u64, number: u64) -> usize
    requires { length (refusal_line refusal number) ≤ length out.old }
    ensures { Written out.old (refusal_line refusal number) result out.new }
{
    let fields = [Field::Count(refusal), Field::Count(number)];
    put_line(out, b"refused", &fields)
}
