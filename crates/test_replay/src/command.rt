// What a line asks for.
ghost use Rattle.std.specs.Prelude.{◌≡◌};
ghost use Rattle.test_replay.specs.Command.{call_of, command_of};

use crate::hex::decode;
use crate::number::u32_at;
use crate::threshold_bytes::read;
use recognisers::Thresholds;
use recognisers::export::BAR_BYTES;

#[derive(Clone, Copy)]
pub enum Command {
    New,
    Bar([u8; BAR_BYTES]),
    Thresholds(Thresholds),
    Call { recogniser: u32, offset: u32 },
}

// The call of eight bytes: the recogniser and the offset.
#[tactic(auto, unfolding(crate::specs::Command::call_of))]
fn call(s: &[u8; 8]) -> Command
    ensures { result ≡ call_of s.now }
{
    Command::Call {
        recogniser: u32_at(s, 0),
        offset: u32_at(s, 4),
    }
}

// A letter alone, or a letter, a space and as many bytes in hexadecimal as that letter wants.
pub fn parse(line: &[u8]) -> Option<Command>
    ensures { result ≡ command_of line.now }
{
    match line {
        b"n" => Some(Command::New),
        [b'b', b' ', digits @ ..] => Some(Command::Bar(decode(digits)?)),
        [b't', b' ', digits @ ..] => Some(Command::Thresholds(read(&decode(digits)?))),
        [b'c', b' ', digits @ ..] => Some(call(&decode(digits)?)),
        _ => None,
    }
}
