// What is held between two reads of an input, and what the bytes of one print.
ghost use Rattle.std.specs.Prelude.{◌≡◌, false, ◌+◌, ◌-◌, ◌≤◌, length, take};
ghost use Rattle.measures.specs.Bar.{overlay};
ghost use Rattle.input_lines.specs.Lines.{content};
ghost use Rattle.output_lines.specs.Output.{line_room, line_in, Written};
ghost use Rattle.label_lines.specs.Output.{refused_step, fed_step, stop_by, line_step};
ghost use Rattle.label_lines.specs.Session.{state_of, session_of, fresh_state, state_after, prints, used_of, taken_bytes, absorbed_of, end_prints};
ghost use Rattle.label_lines.specs.SessionSteps.{Takes};

use bar_box::BarBox;
use measures::{Bar, put_bar};
use output_lines::Stop;
pub use output_lines::output::ROOM;
use output_lines::output::{print_refusal, print_rows};
use recognisers::counts::ROW_BYTES;
use recognisers::{Refusal, Thresholds};
use text::lines::LINE_FEED;
use text::{LineError, Partial, lines, read_partial};

// The line that has begun, the box, and whether a line was refused.
#[derive(Clone, Copy)]
pub struct Session {
    pub line: Partial,
    pub held: BarBox,
    pub stopped: bool,
}

// Whether the session stops at a line, and the place behind what the line printed, which there is in either case.
#[derive(Clone, Copy)]
struct Stepped {
    stops: bool,
    at: usize,
}

// How many bytes were used, and the place behind what they printed.
#[derive(Clone, Copy)]
struct Advanced {
    used: usize,
    written: usize,
}

// The session after the first used bytes, which printed the first written bytes of the buffer.
#[derive(Clone, Copy)]
pub struct Absorbed {
    pub session: Session,
    pub used: usize,
    pub written: usize,
}

// Before the first byte.
pub fn begin() -> Session
    ensures { result ≡ session_of fresh_state }
{
    let standard = Thresholds::standard();
    let made = bar_box::make(standard);
    let held = made.after;
    let line = lines::begin();
    Session {
        line,
        held,
        stopped: false,
    }
}

// The line of a refusal, at which the session stops.
fn refuse(held: &BarBox, stop: Stop, out: &mut [u8], at: usize) -> Stepped
    requires { at + line_room ≤ length out.old }
    ensures { Takes (refused_step held.now stop) held.now result out.old at out.new }
{
    let ordinal = u64::from(held.count) + 1;
    let at = print_refusal(ordinal, Some(stop), out, at);
    Stepped { stops: true, at }
}

// Feeds one bar and prints its rows.
fn feed_bar(held: &mut BarBox, bar: Bar, out: &mut [u8], at: usize) -> Stepped
    requires { at + line_room ≤ length out.old }
    ensures { Takes (fed_step held.old bar) held.new result out.old at out.new }
{
    let ordinal = u64::from(held.count) + 1;
    let mut prices = [0.0; 4];
    put_bar(bar, &mut prices, 0);
    let mut sheet = [0u8; ROW_BYTES];
    match bar_box::feed(held, &prices, &mut sheet) {
        Err(why) => refuse(held, Stop::By(why), out, at),
        Ok(()) => {
            let at = print_rows(ordinal, sheet, out, at);
            Stepped { stops: false, at }
        }
    }
}

// What a line that is no bar is refused by; the tally program's lines are refused by it too.
pub fn stop_by(why: LineError) -> Stop
    ensures { result ≡ stop_by why }
{
    match why {
        LineError::BadShape => Stop::By(Refusal::BadShape),
        LineError::BadPrice(place) => Stop::Price(place),
    }
}

// The end of a line.
fn step(held: &mut BarBox, line: Partial, out: &mut [u8], at: usize) -> Stepped
    requires { at + line_room ≤ length out.old }
    ensures { Takes (line_step held.old (content line)) held.new result out.old at out.new }
{
    match read_partial(line) {
        Ok(bar) => feed_bar(held, bar, out, at),
        Err(why) => refuse(held, stop_by(why), out, at),
    }
}

// Bytes up to the end of a line, or all of them if none ends there: how many they are, and the place behind what they printed.
fn advance(st: &mut Session, chunk: &[u8], out: &mut [u8], at: usize) -> Advanced
    requires { (st.old.stopped ≡ false) × (1 ≤ length chunk.now) × (at + line_room ≤ length out.old) }
    ensures used { (1 ≤ result.used) × (result.used ≤ length chunk.now) × (used_of (length out.old - at) (state_of st.old) (take result.used chunk.now) ≡ result.used) }
    ensures session { st.new ≡ session_of (state_after (state_of st.old) (take result.used chunk.now)) }
    ensures printed { (result.written ≤ at + line_room) × Written out.old at (prints (state_of st.old) (take result.used chunk.now)) out.new result.written }
{
    let k = lines::piece_end(LINE_FEED, chunk);
    let line = lines::extend(st.line, &chunk[..k]);
    if k < chunk.len() {
        let stepped = step(&mut st.held, line, out, at);
        st.line = lines::begin();
        st.stopped = stepped.stops;
        Advanced {
            used: k + 1,
            written: stepped.at,
        }
    } else {
        st.line = line;
        Advanced {
            used: k,
            written: at,
        }
    }
}

// Bytes of input, as long as no line is refused and the buffer has room for what a line may print, 1,332 bytes. Where some bytes are
// lent, no line was refused before and the buffer has that room, at least one byte is used (SessionLaws.used-some).
pub fn absorb(st: Session, chunk: &[u8], out: &mut [u8]) -> Absorbed
    ensures answer { result ≡ absorbed_of st chunk.now (length out.old) }
    ensures within { result.written ≤ length out.old }
    ensures buffer { out.new ≡ overlay out.old 0 (prints (state_of st) (taken_bytes (length out.old) (state_of st) chunk.now)) }
{
    // the line anew, so that the session is one value also where no byte is used
    let line = lines::extend(st.line, &chunk[..0]);
    let mut session = Session { line, ..st };
    let mut used = 0usize;
    let mut written = 0usize;
    // no `for`: each turn takes the bytes of a whole line
    while (used < chunk.len()) & !session.stopped & (ROOM <= out.len() - written) {
        let next = advance(&mut session, &chunk[used..], out, written);
        used += next.used;
        written = next.written;
    }
    Absorbed {
        session,
        used,
        written,
    }
}

// The end of the input, where a line that has begun ends. A buffer without the room that a line may need stays as it is.
pub fn end(st: Session, out: &mut [u8]) -> usize
    ensures printed { Written out.old 0 (line_in line_room (length out.old) (end_prints (state_of st))) out.new result }
    ensures within { result ≤ length out.old }
{
    let mut held = st.held;
    let none = lines::is_empty(st.line);
    if (ROOM <= out.len()) & !st.stopped & !none {
        step(&mut held, st.line, out, 0).at
    } else {
        0
    }
}
