// Writing a layer.
use measures::Bar;
use terms::Layer;
use test_output::{number, price, text};
use trading_hours::{DayWindow, Hours};

fn last_stamp(last: Option<u32>) {
    match last {
        None => text(b" -"),
        Some(s) => number(b" ", u64::from(s)),
    }
}

fn open_bar(pending: Option<Bar>) {
    match pending {
        None => text(b" -"),
        Some(bar) => {
            price(bar.open);
            price(bar.close);
            price(bar.high);
            price(bar.low);
        }
    }
}

// A window, behind a bar if its place is unused.
fn window(w: &DayWindow, used: bool) {
    number(if used { b" " } else { b" |" }, u64::from(w.from));
    number(b"-", u64::from(w.to));
}

fn hours(h: &Hours) {
    for (i, w) in h.windows.iter().enumerate() {
        window(w, i < h.count as usize);
    }
}

// The layer, but for what its box keeps.
pub fn layer(l: &Layer) {
    number(b" ", u64::from(l.inner.count));
    last_stamp(l.carried.last);
    open_bar(l.carried.pending);
    number(b" ", u64::from(l.minutes));
    hours(&l.hours);
    text(b"\n");
}
