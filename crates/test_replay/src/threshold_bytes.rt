// The thresholds of the recognisers, in the order of jcc_label's parameters.
ghost use Rattle.std.specs.Prelude.{◌≡◌};
ghost use Rattle.test_replay.specs.Thresholds.{thresholds_of};

use crate::number::{f64_at, u32_at};
use recognisers::Thresholds;

// How many bytes the thresholds are.
pub const THRESHOLDS_BYTES: usize = 60;

// The thresholds of 60 bytes, with nothing between them.
#[tactic(auto, unfolding(crate::specs::Thresholds::thresholds_of))]
pub fn read(s: &[u8; THRESHOLDS_BYTES]) -> Thresholds
    ensures { result ≡ thresholds_of s.now }
{
    Thresholds {
        th0: f64_at(s, 0),
        z2: u32_at(s, 8),
        th2: u32_at(s, 12),
        z3: u32_at(s, 16),
        th3: u32_at(s, 20),
        zdf5: u32_at(s, 24),
        th6: u32_at(s, 28),
        zdf7: u32_at(s, 32),
        th8: f64_at(s, 36),
        zf8: u32_at(s, 44),
        th10: u32_at(s, 48),
        th13: u32_at(s, 52),
        th14: u32_at(s, 56),
    }
}
