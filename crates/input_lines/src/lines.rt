// The splitting of an input into lines.
ghost use Rattle.std.specs.Prelude.{◌≡◌, [], ◌++◌, ◌≤◌, eqb, length};
ghost use Rattle.input_lines.specs.Lines.{piece_end, kept_line, content, partial_of};

// What ends a line.
pub const LINE_FEED: u8 = b'\n';

// What stands between two fields of a line.
pub const COMMA: u8 = b',';

// The most bytes of a line.
pub const LONGEST_LINE: usize = 80;

// Of a longer line so many are kept, which are enough to tell.
pub const KEPT_BYTES: usize = LONGEST_LINE + 1;

// How many bytes of s come before the first separator: all, if it has none.
pub fn piece_end(separator: u8, s: &[u8]) -> usize
    ensures { (result ≡ piece_end separator s.now) × (result ≤ length s.now) }
{
    s.iter().position(|b| *b == separator).unwrap_or(s.len())
}

// The bytes of a line that has begun, of which the first len count: memory of a fixed size that a session holds by value. Whoever fills one
// may leave anything behind them, and `content` and `partial_of` say what each call makes of it. A vector of fixed capacity is no plainer: it
// can't be copied, and no equation can say that it is one value.
#[derive(Clone, Copy)]
pub struct Partial {
    pub bytes: [u8; KEPT_BYTES],
    pub len: usize,
}

// A line that has no bytes yet.
pub fn begin() -> Partial
    ensures { result ≡ partial_of [] }
{
    Partial {
        bytes: [0; KEPT_BYTES],
        len: 0,
    }
}

// The line with the bytes of s behind it. Of the line only the bytes that count are copied, so that the answer is one value, whatever a
// caller left behind them.
pub fn extend(line: Partial, s: &[u8]) -> Partial
    ensures { result ≡ partial_of (kept_line (content line ++ s.now)) }
{
    let begun = line.len.min(KEPT_BYTES);
    let added = s.len().min(KEPT_BYTES - begun);
    let len = begun + added;
    let mut bytes = [0; KEPT_BYTES];
    bytes[..begun].copy_from_slice(&line.bytes[..begun]);
    bytes[begun..len].copy_from_slice(&s[..added]);
    Partial { bytes, len }
}

// Whether the line has no bytes.
pub fn is_empty(line: Partial) -> bool
    ensures { result ≡ eqb (length (content line)) 0 }
{
    line.len == 0
}
