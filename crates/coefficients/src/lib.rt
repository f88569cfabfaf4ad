// The coefficients of the curves A and B and of the supplement's rate, as whole numbers.
// The first set serves a remaining insurance term of up to 60 months. Every piece is computed, then one is chosen: no branch to mispredict.
#![tactic(auto)]

ghost use Rattle.std.specs.Prelude.{◌≡◌, true, false};
ghost use Rattle.exact.specs.Choice.{up_to};
ghost use Rattle.coefficients.specs.Coefficients.{first_set_lem, Months};
ghost use Rattle.coefficients.specs.Integers.{scaled_a, scaled_b, scaled_c, tenths_b};

// The coefficients of a curve: weights in 12ths, means and deviations in 120000ths. The second weight is plus2 - minus2.
#[derive(Clone, Copy)]
pub struct ScaledCurve {
    pub weight1: u64,
    pub mean1: u64,
    pub deviation1: u64,
    pub plus2: u64,
    pub minus2: u64,
    pub mean2: u64,
    pub deviation2: u64,
}

// The first value up to the limit, and the second above it.
fn up_to(limit: u64, months: u64, x: u64, y: u64) -> u64
    ensures { result ≡ up_to limit months x y }
{
    if months <= limit { x } else { y }
}

// The set that a remaining insurance term calls for.
pub fn first_set(term: u64) -> bool
    ensures { result ≡ first_set_lem term }
{
    term <= 60
}

// What remains of a loan, as its coefficients go by it: whether the first set serves its insurance term, and its amortization in months.
// Kept: `first` is a bool, as `first_set` answers it and the definitions scaled_a, scaled_b, scaled_c and tenths_b take it.
#[derive(Clone, Copy)]
pub struct Remaining {
    pub first: bool,
    pub months: u64,
    pub ghost in_range: { Months months },
}

impl Remaining {
    #[tactic(auto, unfolding(crate::specs::Integers::scaled_a))]
    fn first_a(self) -> ScaledCurve
        ensures { result ≡ scaled_a true self.months }
    {
        let n = self.months;
        ScaledCurve {
            weight1: up_to(132, n, 123 * n + 6240, 27000 - 25 * n),
            mean1: 108000,
            deviation1: up_to(120, n, 20400, up_to(300, n, 22800 - 20 * n, 16800)),
            plus2: up_to(204, n, (115 * n).saturating_sub(1020), 22800),
            minus2: 1020u64.saturating_sub(115 * n),
            mean2: 150000,
            deviation2: up_to(186, n, 19200, 59 * n + 8400),
        }
    }

    #[tactic(auto, unfolding(crate::specs::Integers::scaled_a))]
    fn other_a(self) -> ScaledCurve
        ensures { result ≡ scaled_a false self.months }
    {
        let n = self.months;
        ScaledCurve {
            weight1: up_to(
                192,
                n,
                123 * n + 6240,
                up_to(300, n, 42180 - 65 * n, 34620 - 39 * n),
            ),
            mean1: 108000,
            deviation1: 20400,
            plus2: up_to(300, n, (115 * n).saturating_sub(1020), 68 * n + 13320),
            minus2: 1020u64.saturating_sub(115 * n),
            mean2: 150000,
            deviation2: up_to(186, n, 19200, (109 * n).saturating_sub(1128)),
        }
    }

    #[tactic(auto, unfolding(crate::specs::Integers::scaled_b))]
    fn first_b(self) -> ScaledCurve
        ensures { result ≡ scaled_b true self.months }
    {
        let n = self.months;
        ScaledCurve {
            weight1: up_to(132, n, 233 * n + 23700, 53400),
            mean1: 112800,
            deviation1: up_to(168, n, 27600, up_to(300, n, 38400 - 64 * n, 19200)),
            plus2: up_to(
                180,
                n,
                18600,
                up_to(
                    216,
                    n,
                    (400 * n).saturating_sub(53400),
                    up_to(300, n, 130 * n + 5040, 30 * n + 36240),
                ),
            ),
            minus2: 0,
            mean2: up_to(180, n, 62 * n + 145200, 156000),
            deviation2: up_to(180, n, 16800, 40 * n + 9600),
        }
    }

    #[tactic(auto, unfolding(crate::specs::Integers::scaled_b))]
    fn other_b(self) -> ScaledCurve
        ensures { result ≡ scaled_b false self.months }
    {
        let n = self.months;
        ScaledCurve {
            weight1: up_to(300, n, 233 * n + 23700, 282 * n + 8880),
            mean1: up_to(237, n, 112800, up_to(312, n, 168000 - 233 * n, 96000)),
            deviation1: up_to(177, n, 27600, (163 * n).saturating_sub(984)),
            plus2: up_to(
                231,
                n,
                18600,
                up_to(312, n, (133 * n).saturating_sub(12360), 65880 - 117 * n),
            ),
            minus2: 0,
            mean2: up_to(399, n, 62 * n + 145200, 170400),
            deviation2: up_to(
                228,
                n,
                16800,
                up_to(324, n, (103 * n).saturating_sub(7008), 25800),
            ),
        }
    }

    #[tactic(auto, unfolding(crate::specs::Integers::scaled_a))]
    pub fn curve_a(self) -> ScaledCurve
        ensures { result ≡ scaled_a self.first self.months }
    {
        if self.first {
            self.first_a()
        } else {
            self.other_a()
        }
    }

    #[tactic(auto, unfolding(crate::specs::Integers::scaled_b))]
    pub fn curve_b(self) -> ScaledCurve
        ensures { result ≡ scaled_b self.first self.months }
    {
        if self.first {
            self.first_b()
        } else {
            self.other_b()
        }
    }

    // c of the supplement's rate, in 12000ths.
    #[tactic(auto, unfolding(crate::specs::Integers::scaled_c))]
    pub fn rate_c(self) -> u64
        ensures { result ≡ scaled_c self.first self.months }
    {
        let n = self.months;
        if self.first {
            up_to(
                120,
                n,
                960,
                up_to(156, n, 3840u64.saturating_sub(13 * n), 2280),
            )
        } else {
            960
        }
    }

    // b of the supplement's rate, in tenths.
    #[tactic(auto, unfolding(crate::specs::Integers::tenths_b))]
    pub fn rate_b(self) -> u64
        ensures { result ≡ tenths_b self.first self.months }
    {
        let n = self.months;
        if self.first { up_to(120, n, 3, 0) } else { 3 }
    }
}

// The curve A, from the set and the months by themselves.
pub fn curve_a(first: bool, n: u64) -> ScaledCurve
    requires { Months n }
    ensures { result ≡ scaled_a first n }
{
    Remaining { first, months: n }.curve_a()
}

// The curve B likewise.
pub fn curve_b(first: bool, n: u64) -> ScaledCurve
    requires { Months n }
    ensures { result ≡ scaled_b first n }
{
    Remaining { first, months: n }.curve_b()
}
