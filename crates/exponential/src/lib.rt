// exp(-y) in fixed point, never below it (document 01, "The exponential").
#![tactic(auto)]

ghost use Rattle.std.specs.Prelude.{◌≡◌, ◌*◌, ◌-◌, ◌<◌, ◌≤◌, ◌^◌};
ghost use Rattle.exponential.specs.Exponential.{half_square_lem, third_part_lem, decrease, lowered, exp_upper_lem};
ghost use Rattle.exponential.specs.Table.{exponentials};

mod values;

// How many entries the table has: exp(-k/64) for k from 0 to 1536.
pub const ENTRIES: usize = 1537;

// Kept: an array that is asked to be the table, and no type that says so: `exp_upper`, and above it `charge` and `feed_with`, which README names,
// are lent any array that is.
pub type Exponentials = [u64; ENTRIES];

// The table. It is made once and lent from then on: a constant array is stored whole at each use.
pub fn table() -> Exponentials
    ensures { result ≡ exponentials }
{
    values::TABLE
}

// 24 in units of 2^-38: the exponent of the last entry.
const LAST: u64 = 6597069766656;

// What an exponent leaves above an entry, below one 64th, is r: in units of 2^-38 these are 32 bits, and none is cut (02, L2).

// r²/2, rounded down; r in units of 2^-38, the result in units of 2^-40.
fn half_square(r: u32) -> u64
    ensures { result ≡ half_square_lem r }
{
    (r as u64) * (r as u64) / 137438953472
}

// r/3 (1 - r/4), rounded down, in units of 2^-32; s is r²/2.
fn third_part(r: u32, s: u64) -> u64
    requires { s ≡ half_square_lem r }
    ensures { result ≡ third_part_lem r }
{
    (8 * (r as u64) - s) * 178956970 / 274877906944
}

// 1 - exp(-r) for r below one 64th, rounded down; r in units of 2^-38, the result in units of 2^-40.
fn decrease_of(r: u32) -> u64
    ensures { (result ≡ decrease r) × (result < 2 ^ 34) }
{
    let s = half_square(r);
    let v = third_part(r, s);
    (4 * (r as u64) - s + s * v / 4294967296).saturating_sub(1)
}

// t (1 - d), rounded up.
fn lower(t: u64, d: u64) -> u64
    requires { (t ≤ 2 ^ 40) × (d ≤ 2 ^ 40) }
    ensures { result ≡ lowered t d }
{
    t - fixed_point::small_product(t, d)
}

// At or above exp(-y), in units of 2^-40; y in units of 2^-38.
pub fn exp_upper(y: u64, table: &Exponentials) -> u64
    requires { table.now ≡ exponentials }
    ensures { result ≡ exp_upper_lem y }
{
    let x = y.min(LAST);
    let k = (x / 4294967296) as usize;
    let remainder = (x % 4294967296) as u32;
    lower(table[k], decrease_of(remainder))
}
