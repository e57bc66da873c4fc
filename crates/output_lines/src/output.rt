// Lines of output, written into a buffer from a place on. Each function answers the place behind what it wrote.
ghost use Rattle.std.specs.Prelude.{◌≡◌, ◌+◌, ◌≤◌, length, Some};
ghost use Rattle.label_texts.specs.LabelText.{bytes_of};
ghost use Rattle.output_lines.specs.Output.{numeral, field, pair_line, row_lines, longest_row, longest_count, longest_refusal, line_room, goes_on, refusal_part, refusal_line, count_line, Written, Printed};

use input_lines::lines::{COMMA, LINE_FEED};
use label_texts::label_text::label_of;
use recognisers::Refusal;
use recognisers::counts::{RECOGNISERS, ROW_BYTES};
use recognisers::refusals::refusal_number;

// The most bytes of a row: two numbers of at most 20 digits, two labels of at most 15 bytes, and what ends each; of a count, which has a
// label less; and of a refusal: the word, three numbers, and what ends each.
const LONGEST_ROW: usize = 74;

pub const LONGEST_COUNT: usize = 58;

const LONGEST_REFUSAL: usize = 71;

// The room for what a line of input may print: a row for each recogniser.
pub const ROOM: usize = RECOGNISERS * LONGEST_ROW;

// What a line was refused by: a refusal, or 9 with the field's place.
#[derive(Clone, Copy, Debug, PartialEq, Eq)]
pub enum Stop {
    By(Refusal),
    Price(u8),
}

// Whether no line was refused: is_none by its name here, which docs/INDEX.md, a definition and the tally program have.
pub fn goes_on(stop: Option<Stop>) -> bool
    ensures { result ≡ goes_on stop }
{
    stop.is_none()
}

// ---- parts of lines; out and at stay two parameters here, as in the public functions below, whose clauses speak of both

// Bytes and the one that ends them.
fn write_field(s: &[u8], end: u8, out: &mut [u8], at: usize) -> usize
    requires { at + length s.now + 1 ≤ length out.old }
    ensures { Written out.old at (field s.now end) out.new result }
{
    let behind = at + s.len();
    out[at..behind].copy_from_slice(s);
    out[behind] = end;
    behind + 1
}

fn write_number(n: u64, end: u8, out: &mut [u8], at: usize) -> usize
    requires { at + 21 ≤ length out.old }
    ensures { Written out.old at (field (numeral n) end) out.new result }
{
    let mut digits = [0u8; 20];
    let n_digits = io::decimal(n, &mut digits);
    write_field(&digits[..n_digits], end, out, at)
}

fn write_label(code: u8, end: u8, out: &mut [u8], at: usize) -> usize
    requires { at + 16 ≤ length out.old }
    ensures { Written out.old at (field (bytes_of code) end) out.new result }
{
    write_field(label_of(code).as_bytes(), end, out, at)
}

// The line of one recogniser, if its v1 isn't 其他.
fn write_pair(ordinal: u64, k: u64, v1: u8, v2: u8, out: &mut [u8], at: usize) -> usize
    requires { at + longest_row ≤ length out.old }
    ensures { Written out.old at (pair_line ordinal k v1 v2) out.new result }
{
    if v1 == 0 {
        return at;
    }
    let a = write_number(ordinal, COMMA, out, at);
    let b = write_number(k, COMMA, out, a);
    let c = write_label(v1, COMMA, out, b);
    write_label(v2, LINE_FEED, out, c)
}

// A refusal and the byte behind it: the word and its comma, and two numbers of at most 20 digits with what ends each.
fn write_part(ordinal: u64, why: Refusal, end: u8, out: &mut [u8], at: usize) -> usize
    requires { at + 50 ≤ length out.old }
    ensures { (result ≤ at + 50) × Written out.old at (refusal_part ordinal why end) out.new result }
{
    let word = *b"refused";
    let a = write_field(&word, COMMA, out, at);
    let b = write_number(ordinal, COMMA, out, a);
    write_number(u64::from(refusal_number(why)), end, out, b)
}

// The line of a refusal.
fn write_stop(ordinal: u64, stop: Stop, out: &mut [u8], at: usize) -> usize
    requires { at + longest_refusal ≤ length out.old }
    ensures { (result ≤ at + longest_refusal) × Written out.old at (refusal_line ordinal (Some stop)) out.new result }
{
    match stop {
        Stop::By(why) => write_part(ordinal, why, LINE_FEED, out, at),
        Stop::Price(place) => {
            let behind = write_part(ordinal, Refusal::BadPrice, COMMA, out, at);
            write_number(u64::from(place), LINE_FEED, out, behind)
        }
    }
}

// ---- lines, where there is room for the longest of their kind, and else nothing

// The lines of a bar whose row the sheet has, where 1,332 bytes are left.
pub fn print_rows(ordinal: u64, sheet: [u8; ROW_BYTES], out: &mut [u8], at: usize) -> usize
    ensures printed { Printed line_room (row_lines ordinal 0 sheet) out.old at out.new result }
    ensures within { result ≤ at + line_room }
{
    let left = out.len().saturating_sub(at);
    if left < ROOM {
        return at;
    }
    let mut place = at;
    let (pairs, _) = sheet.as_chunks::<2>();
    for (k, [v1, v2]) in pairs.iter().enumerate() {
        place = write_pair(ordinal, k as u64, *v1, *v2, out, place);
    }
    place
}

// The line of a refusal, if there is one, where 71 bytes are left.
pub fn print_refusal(ordinal: u64, stop: Option<Stop>, out: &mut [u8], at: usize) -> usize
    ensures printed { Printed longest_refusal (refusal_line ordinal stop) out.old at out.new result }
    ensures within { result ≤ at + longest_refusal }
{
    let left = out.len().saturating_sub(at);
    if left < LONGEST_REFUSAL {
        return at;
    }
    match stop {
        None => at,
        Some(stop) => write_stop(ordinal, stop, out, at),
    }
}

// The line of a count, where 58 bytes are left.
pub fn print_count(k: u64, code: u8, count: u64, out: &mut [u8], at: usize) -> usize
    ensures { Printed longest_count (count_line k code count) out.old at out.new result }
{
    let left = out.len().saturating_sub(at);
    if left < LONGEST_COUNT {
        return at;
    }
    let a = write_number(k, COMMA, out, at);
    let b = write_label(code, COMMA, out, a);
    write_number(count, LINE_FEED, out, b)
}
