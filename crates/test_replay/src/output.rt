// Output, written a buffer at a time: a write for each answer would be slow, and std's BufWriter has its buffer on the heap.
ghost use Rattle.std.specs.Prelude.{◌≡◌, []};
ghost use Rattle.test_replay.specs.Output.{with_bytes, WithNumber};

use crate::buffer::{Buffer, append};
use io::decimal;
use std::io::{Result, Write};

#[derive(Drop)]
pub struct Output<W> {
    writer: W,
    held: Buffer,
}

impl<W: Write> Output<W> {
    pub fn new(writer: W) -> Self
        ensures { result.held.items ≡ [] }
    {
        Output {
            writer,
            held: Buffer::new(),
        }
    }

    // Hands over what is held.
    pub fn flush(&mut self) -> Result<()>
        ensures { self.new.held.items ≡ [] }
    {
        let written = self.writer.write_all(self.held.as_slice());
        self.held.clear();
        written
    }

    // Where s has no room after what is held, that is handed over first. Where that fails, s is held all the same.
    #[tactic(auto, using(crate::proofs::Laws::Output::both_fit, crate::proofs::Laws::Output::no_room))]
    pub fn write(&mut self, s: &[u8]) -> Result<()>
        ensures { self.new.held.items ≡ with_bytes self.old.held.items s.now }
    {
        if s.len() <= self.held.remaining_capacity() {
            append(&mut self.held, s);
            return Ok(());
        }
        let flushed = self.flush();
        append(&mut self.held, s);
        flushed
    }

    // A number in decimal, with the digits of `io` that WithNumber names, and a line feed. Both are held, whatever writes fail.
    pub fn write_number(&mut self, n: u64) -> Result<()>
        ensures { WithNumber self.old.held.items n self.new.held.items }
    {
        let mut digits = [0; 20];
        let count = decimal(n, &mut digits);
        let number = self.write(&digits[..count]);
        let end = self.write(b"\n");
        number.and(end)
    }
}
