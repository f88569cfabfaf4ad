// Where a line ends in a part of the input.
ghost use Rattle.std.specs.Prelude.{◌≡◌, ◌+◌, ◌≤◌, length, drop};
ghost use Rattle.line_bytes.specs.LineBytes.{newline, index_of};

use memchr::memchr;

// Where the line that begins at `from` ends: at its newline, or else at the chunk's end.
pub fn line_end(chunk: &[u8], from: usize) -> usize
    requires { from ≤ length chunk.now }
    ensures equation { result ≡ from + index_of newline (drop from chunk.now) }
    ensures inside { (from ≤ result) × (result ≤ length chunk.now) }
{
    match memchr(b'\n', &chunk[from..]) {
        Some(n) => from + n,
        None => chunk.len(),
    }
}
