// Up to 4,096 bytes, which lie in the value itself.
ghost use Rattle.std.specs.Prelude.{◌≡◌, ◌++◌, take};
ghost use Rattle.test_replay.specs.Buffer.{capacity};

use arrayvec::ArrayVec;

pub const CAPACITY: usize = 4096;

pub type Buffer = ArrayVec<u8, CAPACITY>;

// Appends the bytes of s for which there is room. The others are dropped.
pub fn append(buffer: &mut Buffer, s: &[u8])
    ensures { buffer.new.items ≡ take capacity (buffer.old.items ++ s.now) }
{
    let n = s.len().min(buffer.remaining_capacity());
    buffer.try_extend_from_slice(&s[..n]).unwrap();
}
