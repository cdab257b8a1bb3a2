//! Calls of `clock_sync`.

use call_words::{LAST, Words, shown};
use clock_sync::TeamClock;
use std::alloc::{AllocError, Global};
use tw_num::Interval;

/// The greatest end of an interval.
const LATEST: u64 = (1 << 62) - 1;

/// The greatest bound of a packet's way.
const LONGEST: u64 = (1 << 61) - 1;

/// `new`, which makes the clock, `reference`, `hear`, `read` and `interval`.
pub fn call(
    clock: &mut TeamClock,
    alloc: Global,
    words: &mut Words<'_>,
) -> Result<String, AllocError> {
    match words.among(&["new", "reference", "hear", "read", "interval"]) {
        0 => {
            let ppm = words.number(1000);
            let eps = words.number(u64::MAX);
            *clock = TeamClock::new(ppm, eps);
            Ok(String::new(alloc))
        }
        1 => {
            let h = words.number(LAST);
            let Interval { lo, hi } = words.interval(LATEST);
            shown(alloc, &clock.reference(h, lo, hi))
        }
        2 => {
            let h = words.number(LAST);
            let interval = words.interval(LATEST);
            let bound = words.number(LONGEST);
            shown(alloc, &clock.hear(h, interval, bound))
        }
        3 => shown(alloc, &clock.read(words.number(LAST))),
        4 => shown(alloc, &clock.interval(words.number(LAST))),
        _ => Ok(String::new(alloc)),
    }
}
