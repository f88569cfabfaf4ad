// A file that is a list of numbers, as a sheet of credit factors is lent (02, L3).
#![tactic(auto)]

ghost use Rattle.std.specs.Prelude.{◌≡◌};
ghost use Rattle.sheet_file.specs.NumberList.{ZeroFrom, ReadsNumbers, numbers_of};
ghost use Rattle.sheet_file.specs.Reading.{after_separator_lem, put_after, count_after};

// One more than the 66 of a sheet, so that a longer list is told from a sheet.
pub const MOST: usize = 67;

// Where the numbers are put.
pub type Room = [u64; MOST];

// The position after the separator; past the end where another byte stands. At the end none is needed.
// Kept: no Option, since the definition after_separator_lem, and with it what reading comes to, goes past the end there.
fn after_separator(bytes: &[u8], at: usize) -> usize
    ensures { result ≡ after_separator_lem bytes.now at }
{
    let size = bytes.len();
    let past = size + 1;
    if size <= at {
        return at;
    }
    let b = bytes[at];
    if (b == b' ') | (b == b'\n') {
        return at + 1;
    }
    past
}

// Stored whole, so that its length is known from here on.
fn clear(out: &mut Room)
    ensures { ZeroFrom 0 out.new }
{
    *out = [0; MOST];
}

// Puts a number after the first `count` where there is room, and says how many there are then.
fn put(out: &mut Room, count: usize, n: u64) -> usize
    ensures { (result ≡ count_after count) × (out.new ≡ put_after out.old count n) }
{
    if count < MOST {
        out[count] = n;
        return count + 1;
    }
    count
}

// The numbers of a list of numbers, from the first on, and 0 after them; the result is how many. A number or a separator that is missing leads
// past the end: then the bytes are no list, and none is handed out.
pub fn numbers_in(bytes: &[u8], out: &mut Room) -> Option<usize>
    ensures { ReadsNumbers bytes.now (numbers_of result) out.new }
{
    clear(out);
    let mut at = 0;
    let mut count = 0;
    while at < bytes.len() {
        let n = line_fields::number_at(bytes, at);
        count = put(out, count, n.value);
        at = after_separator(bytes, n.next);
    }
    if at == bytes.len() {
        return Some(count);
    }
    clear(out);
    None
}
