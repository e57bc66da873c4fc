// Why a call is refused.
ghost use Rattle.std.specs.Prelude.{◌≡◌};
ghost use Rattle.answers.specs.Refusal.{refusal_number, verdict_number};

// Why a call is refused, by number. Most calls try theirs in this order; a layer's 12 comes next after 3.
#[derive(Clone, Copy, Debug, PartialEq, Eq)]
pub enum Refusal {
    UnknownRecogniser = 1,
    ZeroOffset = 2,
    BadThreshold = 3,
    BrokenBars = 4,
    TooManyBars = 5,
    ShortSheet = 6,
    FarLook = 7,
    BadShape = 8,
    BadPrice = 9,
    LateStamp = 10,
    OutsideHours = 11,
    BadLayer = 12,
}

// The number of a refusal.
pub fn refusal_number(r: Refusal) -> u8
    ensures { result ≡ refusal_number r }
{
    r as u8
}

// The number of the refusal, 0 if there is none.
pub fn verdict_number(v: Result<(), Refusal>) -> u8
    ensures { result ≡ verdict_number v }
{
    match v {
        Ok(()) => 0,
        Err(why) => refusal_number(why),
    }
}
