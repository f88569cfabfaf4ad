// The report's ten lines, each written to what remains of the lent buffer.
#![tactic(auto)]

ghost use Rattle.std.specs.Prelude.{◌≡◌, ◌≤◌, length};
ghost use Rattle.report.specs.Line.{Written};
ghost use Rattle.book_report.specs.Report.{unsigned, ratio_line, report_text};

use figures::{Figures, Ratio};
use fixed_point::Signed;
use report::Field;

// A number that has no sign.
fn unsigned(number: u64) -> Signed
    ensures { result ≡ unsigned number }
{
    Signed {
        plus: number,
        minus: 0,
    }
}

fn put_ratio(out: &mut [u8], ratio: Ratio) -> usize
    requires { 40 ≤ length out.old }
    ensures line { Written out.old (ratio_line ratio) result out.new }
    ensures short { result ≤ 40 }
{
    match ratio {
        Some(value) => report::put_line(out, b"ratio", &[Field::Number(value)]),
        None => report::put_line(out, b"ratio", &[Field::Word(b"none")]),
    }
}

pub fn put_report(out: &mut [u8], f: Figures) -> usize
    requires { 512 ≤ length out.old }
    ensures { Written out.old (report_text f) result out.new }
{
    let lines: [(&[u8], Signed); 9] = [
        (b"loans", unsigned(f.loans)),
        (b"total", f.total),
        (b"supplement", f.supplement),
        (b"home", unsigned(f.home)),
        (b"moved", unsigned(f.moved)),
        (b"rest", unsigned(f.rest)),
        (b"oper", unsigned(f.oper)),
        (b"required", unsigned(f.required)),
        (b"capital", f.capital),
    ];
    let at = report::put_lines(out, &lines);
    at + put_ratio(&mut out[at..], f.ratio)
}
