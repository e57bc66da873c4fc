// Sessions that a caller filled, and buffers without room, a line each.
use crate::run::{run, write as write_printed};
use bar_box::BarBox;
use label_lines::session::ROOM;
use label_lines::{Session, session};
use recognisers::Thresholds;
use test_output::{number, text};

// A byte less than the room for what a line may print.
const SHORT: usize = ROOM - 1;

// What a session prints whose box counts so many bars, all of zeros.
fn write_filled(thresholds: Thresholds, count: u32, input: &[u8]) {
    let held = BarBox {
        count,
        ..bar_box::fresh(thresholds)
    };
    let st = Session {
        held,
        ..session::begin()
    };
    let mut out = io::buffer();
    write_printed(run(st, input, &mut out));
}

// Two good lines to a box that counts so many bars.
fn write_count(count: u32) {
    number(b"", u64::from(count));
    text(b" bars");
    write_filled(Thresholds::standard(), count, b"10,11,11,7\n10,11,11,7\n");
}

// Bad thresholds: a line is read before it is fed, and the thresholds are judged before the count.
fn write_bad(name: &[u8], bad: Thresholds) {
    text(name);
    write_filled(bad, 0, b"10,11,11,7\n10,11,11,7\n");
    text(name);
    text(b", bad line");
    write_filled(bad, 0, b"1O,11,11,7\n");
    text(name);
    text(b", 1000000 bars");
    write_filled(bad, 1000000, b"10,11,11,7\n");
}

// How many bytes of an input are used and printed, and how many the input's end prints in their place.
fn write_room(name: &[u8], st: Session, input: &[u8], out: &mut [u8]) {
    let ended = session::end(st, out);
    let absorbed = session::absorb(st, input, out);
    text(name);
    number(b": used ", absorbed.used as u64);
    number(b", printed ", absorbed.written as u64);
    number(b", end ", ended as u64);
    text(b"\n");
}

// A session that has begun a line.
fn begun() -> Session {
    let mut out = io::buffer();
    session::absorb(session::begin(), b"10,11,11,7", &mut out).session
}

fn write_rooms() {
    // the end of the line that the session has begun, and a line more
    let rest = b"\n10,11,11,7\n";
    let stopped = Session {
        stopped: true,
        ..begun()
    };
    // nothing is used
    let mut short = [0; SHORT];
    // just what a line may print: a line is used at a time
    let mut single = [0; ROOM];
    let mut ample = io::buffer();
    write_room(b"begun", session::begin(), b"10,11,11,7", &mut ample);
    write_room(b"1331 bytes", begun(), rest, &mut short);
    write_room(b"1332 bytes", begun(), rest, &mut single);
    write_room(b"4096 bytes", begun(), rest, &mut ample);
    write_room(b"4096 bytes, stopped", stopped, rest, &mut ample);
}

pub fn write() {
    for count in [999999, 1000000, 1000001] {
        write_count(count);
    }
    let standard = Thresholds::standard();
    let th14_above = Thresholds {
        th14: 10000001,
        ..standard
    };
    let th0_nan = Thresholds {
        th0: f64::NAN,
        ..standard
    };
    write_bad(b"th14 10000001", th14_above);
    write_bad(b"th0 NaN", th0_nan);
    write_rooms();
}
