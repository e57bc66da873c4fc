// What is held between two reads of an input, and what its end prints.
ghost use Rattle.std.specs.Prelude.{◌≡◌, true, [], ◌+◌, ◌*◌, ◌≤◌, ◌<◌, length, take};
ghost use Rattle.measures.specs.Bar.{bars_of};
ghost use Rattle.recognisers.specs.Number.{most_bars, places};
ghost use Rattle.input_lines.specs.Lines.{content, partial_of};
ghost use Rattle.output_lines.specs.Output.{goes_on, line_in, Written};
ghost use Rattle.tally_lines.specs.Output.{tally_room};
ghost use Rattle.tally_lines.specs.Session.{state_of, session_of, fresh_state, fed_all, settled_by, state_after, printed, closed, end_prints};
ghost use Rattle.tally_lines.specs.SessionSteps.{fed_by};

use crate::reading::Gathered;
use crate::{output, reading};
use bar_box::BarBox;
use output_lines::Stop;
use output_lines::output::{LONGEST_COUNT, print_refusal};
use recognisers::counts::{LABELS, MOST_BARS, RECOGNISERS};
use recognisers::{Refusal, Thresholds};
use tallies::TallyRow;
use text::{Partial, lines};

// The room for what the input's end may print: a line for each cell.
const ROOM: usize = RECOGNISERS * LABELS * LONGEST_COUNT;

// The line that has begun, the box, the tally, and what a line was refused by.
#[derive(Clone, Copy)]
pub struct Session {
    pub line: Partial,
    pub held: BarBox,
    pub tally: [TallyRow; RECOGNISERS],
    pub stop: Option<Stop>,
}

// Before the first byte.
pub fn begin() -> Session
    ensures { result ≡ session_of fresh_state }
{
    let made = bar_box::make(Thresholds::standard());
    let held = made.after;
    Session {
        line: lines::begin(),
        held,
        tally: tallies::fresh(),
        stop: None,
    }
}

// How many bars are fed at once: up to 1,024, as many as a box that counts so many may still take; or one, whose feed is then refused.
fn batch(count: u32) -> usize
    ensures { (1 ≤ result) × (result ≤ 1024) × (1 < result → count + result ≤ most_bars) }
{
    MOST_BARS.saturating_sub(count as usize).clamp(1, 1024)
}

// Feeds bars all at once, which leaves what feeding them one by one does (proofs/BatchLaws.antt). No bars, no feed: a tally that doesn't add
// up is refused with the first bar. That the box has all its places is asked and kept, since nothing here reads them, which would show it.
fn feed_all(
    held: &mut BarBox,
    tally: [TallyRow; RECOGNISERS],
    prices: &[f64],
) -> Result<[TallyRow; RECOGNISERS], Refusal>
    requires { (length held.old.bars ≡ places) × (length prices.now ≡ 4 * length (bars_of prices.now)) × (length prices.now ≤ 4096) × (1 < length (bars_of prices.now) → held.old.count + length (bars_of prices.now) ≤ most_bars) }
    ensures fed { fed_all held.old tally (bars_of prices.now) ≡ fed_by result held.new tally }
    ensures places { length held.new.bars ≡ places }
{
    if prices.is_empty() {
        return Ok(tally);
    }
    let mut sheet = io::large_buffer();
    tallies::feed(held, tally, prices, &mut sheet)
}

// What the feed of the bars that were gathered leaves beside the box: a refused one refuses its line.
fn settle(st: &mut Session, fed: Result<[TallyRow; RECOGNISERS], Refusal>, got: Gathered)
    requires { got.line ≡ partial_of (content got.line) }
    ensures { st.new ≡ session_of (settled_by (fed_by fed st.old.held st.old.tally) (record { bars = []; line = content got.line; stop = got.stop })) }
{
    match fed {
        Err(why) => {
            st.line = lines::begin();
            st.stop = Some(Stop::By(why));
        }
        Ok(tally) => {
            st.line = got.line;
            st.tally = tally;
            st.stop = got.stop;
        }
    }
}

// Takes in bytes up to a batch's end, or all of them; answers how many.
fn take_in(st: &mut Session, chunk: &[u8]) -> usize
    requires { (goes_on st.old.stop ≡ true) × (1 ≤ length chunk.now) × (length st.old.held.bars ≡ places) }
    ensures used { (1 ≤ result) × (result ≤ length chunk.now) }
    ensures session { st.new ≡ session_of (state_after (state_of st.old) (take result chunk.now)) }
    ensures places { length st.new.held.bars ≡ places }
{
    let most = batch(st.held.count);
    let mut prices = [0.0; 4096];
    let got = reading::gather(st.line, chunk, most, &mut prices);
    let n = 4 * got.bars;
    let fed = feed_all(&mut st.held, st.tally, &prices[..n]);
    settle(st, fed, got);
    got.used
}

// Bytes of input.
pub fn absorb(st: Session, chunk: &[u8]) -> Session
    ensures { result ≡ session_of (state_after (state_of st) chunk.now) }
{
    // the line anew, so that the session is one value also where no byte is used
    let line = lines::extend(st.line, &chunk[..0]);
    let mut session = Session { line, ..st };
    let mut used = 0usize;
    // not over the bytes one by one: each turn takes a batch
    while (used < chunk.len()) & session.stop.is_none() {
        used += take_in(&mut session, &chunk[used..]);
    }
    session
}

// The input's end, where a line that has begun ends.
fn close(st: Session) -> Session
    ensures { state_of result ≡ closed (state_of st) }
{
    if lines::is_empty(st.line) {
        st
    } else {
        absorb(st, b"\n")
    }
}

// The tally, or the refusal.
fn print(st: &Session, out: &mut [u8]) -> usize
    requires { tally_room ≤ length out.old }
    ensures { (result ≤ length out.old) × Written out.old 0 (printed (state_of st.now)) out.new result }
{
    let ordinal = u64::from(st.held.count) + 1;
    if st.stop.is_none() {
        output::write_tally(&st.tally, out)
    } else {
        print_refusal(ordinal, st.stop, out, 0)
    }
}

// What the input's end prints. A buffer without the room that a tally may need, 39,672 bytes, stays as it is.
pub fn end(st: Session, out: &mut [u8]) -> usize
    ensures printed { Written out.old 0 (line_in tally_room (length out.old) (end_prints (state_of st))) out.new result }
    ensures within { result ≤ length out.old }
{
    if ROOM <= out.len() {
        print(&close(st), out)
    } else {
        0
    }
}
