//! Calls of `order_rules`.

ghost use Rattle.tw_types.specs.Ranges.{Ascends};

use crate::store::Stores;
use crate::updates::{LAST_POSITION, entry_text};
use arrayvec::ArrayVec;
use call_words::{Words, shown};
use order_rules::append;
use std::alloc::{AllocError, Global};
use tw_types::{Decision, Entry, Team, TimeMark};

/// A sound team of five processes with exact clocks.
const TEAM: Team = Team {
    n: 5,
    ..Team::OF_THREE
};

/// A window of so many entries.
fn blank(count: u8) -> ArrayVec<Entry, 32> {
    let mut window = ArrayVec::new();
    for _ in 0..count {
        let _ = window.try_push(Entry::default());
    }
    window
}

/// Adds what may be added of the updates that wait to a decision of the same seats, whose window begins at the first number
/// with so many entries. The third number is how many were passed, the fourth the team time.
fn appended(stores: &Stores, mark: TimeMark, words: &mut Words<'_>) -> Decision {
    let mut d = stores.view();
    d.low = words.number(LAST_POSITION);
    d.window = blank(words.byte(32));
    d.mark = mark;
    let passed = words.number(LAST_POSITION);
    let t = words.number(LAST_POSITION);
    append(&TEAM, stores.store(), &mut d, passed, t);
    d
}

/// The mark of a decision before entries are added, and the last decision that some were added to.
#[derive(Drop)]
pub struct Orderings {
    mark: TimeMark,
    after: Decision,
}

impl Orderings {
    pub fn new() -> Orderings {
        Orderings {
            mark: TimeMark {
                stamp: 0,
                who: 0,
                seq: 0,
            },
            after: Decision::default(),
        }
    }

    /// `mark-before` with a stamp, a process and a number; `append`, which gives how many entries the window has then; and
    /// of the last decision that was appended to `mark`, and `entry` with a place in the window.
    pub fn call(
        &mut self,
        alloc: Global,
        stores: &Stores,
        words: &mut Words<'_>,
    ) -> Result<String, AllocError> {
        match words.among(&["mark-before", "append", "mark", "entry"]) {
            0 => {
                self.mark = TimeMark {
                    stamp: words.number(LAST_POSITION),
                    who: words.byte(TEAM.n),
                    seq: words.seq(),
                };
                Ok(String::new(alloc))
            }
            1 => {
                self.after = appended(stores, self.mark, words);
                shown(alloc, &self.after.window.len())
            }
            2 => shown(alloc, &self.after.mark),
            3 => match self.after.window.get(usize::from(words.byte(31))) {
                None => String::from_str(alloc, "none"),
                Some(entry) => entry_text(alloc, entry),
            },
            _ => Ok(String::new(alloc)),
        }
    }
}
