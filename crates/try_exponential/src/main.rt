// Tries the exponential on the cases of standard input, `y least greatest` to a line, and prints each answer that
// lies outside.
#![tactic(auto)]

ghost use Rattle.std.specs.Prelude.{◌≡◌};
ghost use Rattle.exponential.specs.Table.{exponentials};

use cases::{Cases, Trial};
use exponential::Exponentials;
use std::io::Print;

// The exponential by a table.
#[derive(Drop)]
struct Exponential<'a, P> {
    out: &'a P,
    table: &'a Exponentials,
    ghost listed: { table.now ≡ exponentials },
}

impl<P: Print> Trial for Exponential<'_, P> {
    fn is_within(&self, cases: &mut Cases) -> bool {
        let [y, least, greatest] = cases.numbers::<3>();
        let got = exponential::exp_upper(y, self.table);
        let ok = (least <= got) & (got <= greatest);
        if !ok {
            let _ = println!(self.out; "outside {y} {got}");
        }
        ok
    }
}

fn main(rt: HostRuntime) {
    let table = exponential::table();
    let exponential = Exponential {
        out: &rt,
        table: &table,
    };
    let tally = cases::try_all(&mut rt.stdin(), &rt, &exponential);
    cases::print_tally(&rt, tally);
}
