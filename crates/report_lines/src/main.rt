// Writes five report lines one after the other, each to what remains of a buffer, then a refusal, and prints them.
#![tactic(auto)]

ghost use Rattle.std.specs.Prelude.{◌≤◌, length};
ghost use Rattle.report.specs.Line.{Written};
ghost use Rattle.report_lines.specs.Sample.{sample};

use fixed_point::Signed;
use report::Field;
use std::io;
use std::io::Print;

// a is written with both signs.
fn put_sample(out: &mut [u8], a: Signed, b: Signed) -> usize
    requires { 512 ≤ length out.old }
    ensures { Written out.old (sample a b) result out.new }
{
    let back = Signed {
        plus: a.minus,
        minus: a.plus,
    };
    let lines: [(&[u8], Signed); 4] = [
        (b"total", a),
        (b"supplement", back),
        (b"capital", b),
        (b"required", a),
    ];
    let at = report::put_lines(out, &lines);
    at + report::put_line(&mut out[at..], b"ratio", &[Field::Word(b"none")])
}

fn main(rt: HostRuntime) -> io::Result<()> {
    let mut out = [0u8; 512];
    let a = Signed {
        plus: 7,
        minus: 1207,
    };
    let b = Signed {
        plus: 18446744073709551615,
        minus: 0,
    };
    let n = put_sample(&mut out, a, b);
    rt.write_all(&out[0..n])?;
    let m = report::put_refusal(&mut out, 2, 100001);
    rt.write_all(&out[0..m])
}
