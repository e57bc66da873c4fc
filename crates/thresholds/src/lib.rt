// The thresholds of the recognisers: the standard set, and whether each is inside its limits. All is proved, nothing is assumed, and no public
// function has a `requires`: each contract is an equation with a definition of specs/, for every input.
#![tactic(auto)]

ghost use Rattle.std.specs.Prelude.{◌≡◌};
ghost use Rattle.thresholds.specs.Threshold.{thresholds_of, standard_set, float_within, whole_within, tenths_within, valid_of};

use rule_types::counts::{MOST_TENTHS, MOST_WHOLE};

// The digit at the end of a name is the recogniser's number. th13 and th14 count tenths.
#[derive(Clone, Copy, Debug, PartialEq)]
pub struct Thresholds {
    pub th0: f64,
    pub z2: u32,
    pub th2: u32,
    pub z3: u32,
    pub th3: u32,
    pub zdf5: u32,
    pub th6: u32,
    pub zdf7: u32,
    pub th8: f64,
    pub zf8: u32,
    pub th10: u32,
    pub th13: u32,
    pub th14: u32,
}

impl Thresholds {
    // The standard set.
    pub const STANDARD: Thresholds = Thresholds {
        th0: 2.0,
        z2: 500,
        th2: 50,
        z3: 100,
        th3: 50,
        zdf5: 500,
        th6: 2,
        zdf7: 300,
        th8: 2.0,
        zf8: 500,
        th10: 100,
        th13: 100,
        th14: 100,
    };

    #[tactic(auto, unfolding(crate::specs::Threshold::standard_set))]
    pub fn standard() -> Thresholds
        ensures { result ≡ standard_set }
    {
        Thresholds::STANDARD
    }

    // A host hands them one by one (jcc_label), so that they are parameters.
    pub fn new(
        th0: f64,
        z2: u32,
        th2: u32,
        z3: u32,
        th3: u32,
        zdf5: u32,
        th6: u32,
        zdf7: u32,
        th8: f64,
        zf8: u32,
        th10: u32,
        th13: u32,
        th14: u32,
    ) -> Thresholds
        ensures { result ≡ thresholds_of th0 z2 th2 z3 th3 zdf5 th6 zdf7 th8 zf8 th10 th13 th14 }
    {
        Thresholds {
            th0,
            z2,
            th2,
            z3,
            th3,
            zdf5,
            th6,
            zdf7,
            th8,
            zf8,
            th10,
            th13,
            th14,
        }
    }

    // Whether every threshold is inside its limits; NaN is not.
    #[tactic(auto, unfolding(crate::specs::Threshold::valid_of))]
    pub fn is_valid(self) -> bool
        ensures { result ≡ valid_of self }
    {
        float_within(self.th0)
            & whole_within(self.z2)
            & whole_within(self.th2)
            & whole_within(self.z3)
            & whole_within(self.th3)
            & whole_within(self.zdf5)
            & whole_within(self.th6)
            & whole_within(self.zdf7)
            & float_within(self.th8)
            & whole_within(self.zf8)
            & whole_within(self.th10)
            & tenths_within(self.th13)
            & tenths_within(self.th14)
    }
}

fn float_within(x: f64) -> bool
    ensures { result ≡ float_within x }
{
    (0.0 <= x) & (x <= 10000.0)
}

fn whole_within(n: u32) -> bool
    ensures { result ≡ whole_within n }
{
    n <= MOST_WHOLE
}

fn tenths_within(n: u32) -> bool
    ensures { result ≡ tenths_within n }
{
    n <= MOST_TENTHS
}
