//! Calls of `late_detector`.

use call_words::{LAST, Words, shown};
use late_detector::{echo_bound, rate};
use std::alloc::{AllocError, Global};
use tw_num::Interval;
use tw_types::{Echo, Head, Team};

/// An interval, as two words, or `-` for none.
fn interval(words: &mut Words<'_>) -> Option<Interval> {
    let lo = words.maybe(u64::MAX)?;
    let hi = words.number(u64::MAX);
    Some(Interval { lo, hi })
}

/// An echo, as two words, or `-` for none.
fn echo(words: &mut Words<'_>) -> Option<Echo> {
    let a = words.maybe(u64::MAX)?;
    let b = words.number(u64::MAX);
    Some(Echo { a, b })
}

/// `echo`: the reading and the other's, where it was sent and where it came, and the drift. `rate`: the time-out, the
/// packet's reading, interval and echo, and the receiver's reading and interval.
pub fn call(alloc: Global, words: &mut Words<'_>) -> Result<String, AllocError> {
    match words.among(&["echo", "rate"]) {
        0 => {
            let a = words.number(u64::MAX);
            let b = words.number(u64::MAX);
            let sent = words.number(LAST);
            let h = words.number(LAST);
            let ppm = words.number(1000);
            shown(alloc, &echo_bound(Echo { a, b }, sent, h, ppm))
        }
        1 => {
            let team = Team {
                delta: words.number(u64::MAX),
                ..Team::OF_THREE
            };
            let head = Head {
                from: 0,
                to: 1,
                incarnation: 5,
                sent: words.number(LAST),
                interval: interval(words),
                echo: echo(words),
            };
            let h = words.number(LAST);
            shown(alloc, &rate(&team, &head, interval(words), h))
        }
        _ => Ok(String::new(alloc)),
    }
}
