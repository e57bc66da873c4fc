// A session's run over an input.
use label_lines::{Session, session};
use test_output::text;

// The first bytes of s, all if it has fewer.
pub fn first(s: &[u8], len: usize) -> &[u8] {
    s.get(..len).unwrap_or(s)
}

// Runs a session over an input that comes in two parts and ends, and answers what it prints, which goes to the start of out.
pub fn run<'a>(st: Session, input: &[u8], out: &'a mut [u8]) -> &'a [u8] {
    let (front, back) = input.split_at(input.len() / 2);
    let begun = session::absorb(st, front, out);
    let mut printed = begun.written;
    let last = session::absorb(begun.session, back, &mut out[printed..]);
    printed += last.written;
    printed += session::end(last.session, &mut out[printed..]);
    &out[..printed]
}

// The same of a session that begins.
pub fn run_fresh<'a>(input: &[u8], out: &'a mut [u8]) -> &'a [u8] {
    run(session::begin(), input, out)
}

// A colon and the lines that a session printed, or an empty one.
pub fn write(printed: &[u8]) {
    text(b":");
    text(if printed.is_empty() { b"\n" } else { printed });
}
