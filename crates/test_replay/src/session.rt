// The state between two lines, and what a line does to it.
ghost use Rattle.std.specs.Prelude.{◌≡◌, [], replicate};
ghost use Rattle.test_replay.specs.Hex.{longest};
ghost use Rattle.test_replay.specs.Line.{EndsAt};
ghost use Rattle.test_replay.specs.Session.{Executes};
ghost use Rattle.test_replay.specs.Thresholds.{thresholds_of};

use crate::buffer::{Buffer, append};
use crate::command::{Command, parse};
use crate::output::Output;
use crate::threshold_bytes::{THRESHOLDS_BYTES, read};
use recognisers::Thresholds;
use std::io::{self, Write};

// Why the replay stops before the end of the input.
#[derive(Drop)]
pub enum Stop {
    // The line of this number, counted from 1, is bad.
    BadLine(u64),
    Output(io::Error),
}

impl From<io::Error> for Stop {
    fn from(e: io::Error) -> Stop {
        Stop::Output(e)
    }
}

#[derive(Drop)]
pub struct Session {
    // The line that has begun, and how many lines have ended.
    line: Buffer,
    ended: u64,
    history: Buffer,
    thresholds: Thresholds,
}

// Where the first line feed of s stands, and the length of s where there is none.
fn line_end(s: &[u8]) -> usize
    ensures { EndsAt s.now 0 result }
{
    s.iter().position(|b| *b == b'\n').unwrap_or(s.len())
}

impl Session {
    pub fn new() -> Self
        ensures line_value { result.line.items ≡ [] }
        ensures history_value { result.history.items ≡ [] }
        ensures thresholds_value { result.thresholds ≡ thresholds_of (replicate longest 0) }
    {
        Session {
            line: Buffer::new(),
            ended: 0,
            history: Buffer::new(),
            thresholds: read(&[0; THRESHOLDS_BYTES]),
        }
    }

    // jcc_label is exported to C, and takes the thresholds one by one.
    fn label(&self, recogniser: u32, offset: u32) -> u32 {
        let t = self.thresholds;
        recognisers::jcc_label(
            recogniser,
            offset,
            t.th0,
            t.z2,
            t.th2,
            t.z3,
            t.th3,
            t.zdf5,
            t.th6,
            t.zdf7,
            t.th8,
            t.zf8,
            t.th10,
            t.th13,
            t.th14,
            self.history.as_slice(),
        )
    }

    // Does what the line that has ended asks for, and begins the next.
    fn end_line<W: Write>(&mut self, output: &mut Output<W>) -> Result<(), Stop>
        ensures executes { Executes self.old self.old.line.items result self.new }
        ensures line_value { self.new.line.items ≡ [] }
    {
        let command = parse(self.line.as_slice());
        self.line.clear();
        // No input has as many as 2^64 lines.
        self.ended = self.ended.wrapping_add(1);
        match command.ok_or(Stop::BadLine(self.ended))? {
            Command::New => self.history.clear(),
            // A bar for which there is no room is a bad line.
            Command::Bar(bar) => self
                .history
                .try_extend_from_slice(&bar)
                .or(Err(Stop::BadLine(self.ended)))?,
            Command::Thresholds(thresholds) => self.thresholds = thresholds,
            Command::Call { recogniser, offset } => {
                output.write_number(u64::from(self.label(recogniser, offset)))?;
            }
        }
        Ok(())
    }

    // The bytes of one read: the rest of a line, lines, and the start of one. No `for` over `split_inclusive`: nothing would hold what it
    // splits at.
    pub fn feed<W: Write>(&mut self, s: &[u8], output: &mut Output<W>) -> Result<(), Stop> {
        let mut rest = s;
        while !rest.is_empty() {
            let (line, behind) = rest.split_at(line_end(rest));
            append(&mut self.line, line);
            let [_, left @ ..] = behind else {
                return Ok(());
            };
            self.end_line(output)?;
            rest = left;
        }
        Ok(())
    }

    // A line that the end of the input cuts off is bad.
    pub fn finish(&self) -> Result<(), Stop> {
        if self.line.is_empty() {
            Ok(())
        } else {
            Err(Stop::BadLine(self.ended.wrapping_add(1)))
        }
    }
}
