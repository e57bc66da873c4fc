// The labels' texts there and back, and bytes that are no label.
use crate::run::first;
use test_output::{number, text};
use text::label_text::NO_LABEL;
use text::{Text, code_of_bytes, code_of_text, text_of};

// A code, its text, how many bytes that has, and the code of it: again that code, or 38.
fn write_code(code: u8) {
    let label = text_of(code);
    number(b"code ", u64::from(code));
    text(b": ");
    text(first(&label.bytes, usize::from(label.len)));
    number(b",", u64::from(label.len));
    number(b",", u64::from(code_of_text(label)));
    text(b"\n");
}

fn write_codes() {
    for code in 0..=NO_LABEL {
        write_code(code);
    }
    write_code(255);
}

fn write_bytes(s: &[u8]) {
    text(b"code of ");
    text(s);
    number(b": ", u64::from(code_of_bytes(s)));
    text(b"\n");
}

// The text 5K, of which so many bytes count.
fn write_counted(len: u8) {
    let bytes = *b"5K\0\0\0\0\0\0\0\0\0\0\0\0\0";
    number(b"code of 5K with a count of ", u64::from(len));
    number(b": ", u64::from(code_of_text(Text { bytes, len })));
    text(b"\n");
}

pub fn write() {
    write_codes();
    // parts of labels, and labels with a byte more
    write_bytes(b"");
    write_bytes(b"5");
    write_bytes(b"5k");
    write_bytes(b"5KK");
    // the first character of 其他
    write_bytes(b"\xe5\x85\xb6");
    // 其他 and a point
    write_bytes(b"\xe5\x85\xb6\xe4\xbb\x96.");
    // 看跌反击线 and a point, more than a text has room for
    write_bytes(b"\xe7\x9c\x8b\xe8\xb7\x8c\xe5\x8f\x8d\xe5\x87\xbb\xe7\xba\xbf.");
    for len in [2, 3, 16, 255] {
        write_counted(len);
    }
}
