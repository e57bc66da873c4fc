// Numbers out of bytes, the least significant byte first.
ghost use Rattle.std.specs.Prelude.{◌≡◌, ◌+◌, ◌≤◌, length, take, drop};
ghost use Rattle.test_replay.specs.Number.{u32_at, f64_at};

use recognisers::export::of_bits;

// The N bytes of s from a place on.
fn array_at<const N: usize>(s: &[u8], at: usize) -> [u8; N]
    requires { at + N ≤ length s.now }
    ensures { result ≡ take N (drop at s.now) }
{
    *s[at..].first_chunk().unwrap()
}

// The u32 of the four bytes from a place on.
#[tactic(auto, unfolding(crate::specs::Number::u32_at, recognisers::specs::Export::little_endian))]
pub(crate) fn u32_at(s: &[u8], at: usize) -> u32
    requires { at + 4 ≤ length s.now }
    ensures { result ≡ u32_at s.now at }
{
    u32::from_le_bytes(array_at(s, at))
}

// The f64 of the eight bytes from a place on.
pub(crate) fn f64_at(s: &[u8], at: usize) -> f64
    requires { at + 8 ≤ length s.now }
    ensures { result ≡ f64_at s.now at }
{
    of_bits(u64::from_le_bytes(array_at(s, at)))
}
