//! Calls of `delivery`.

use crate::list::Lists;
use crate::updates::{LAST_POSITION, Seats};
use call_words::{Words, shown};
use delivery::{fulfils, next_early, next_pass};
use std::alloc::{AllocError, Global};
use tw_types::{Decision, Team};

/// The next word as the size of a team, whose other numbers are those of the team of three.
fn team(words: &mut Words<'_>) -> Team {
    Team {
        n: words.byte(15),
        ..Team::OF_THREE
    }
}

/// The next words as a decision with nothing in its window: the length of its list, and its seats.
fn decision(words: &mut Words<'_>) -> Decision {
    let length = words.number(LAST_POSITION);
    Seats::read(words).decision(length)
}

/// `fulfils` with a position and an atomicity, `next-pass`, and `next-early` with the position to ask from. The size of the team
/// comes before these, and the decision behind them.
pub fn call(lists: &Lists, alloc: Global, words: &mut Words<'_>) -> Result<String, AllocError> {
    let call = words.among(&["fulfils", "next-pass", "next-early"]);
    let team = team(words);
    match call {
        0 => {
            let position = words.number(LAST_POSITION);
            let atom = words.atom();
            shown(alloc, &fulfils(&team, &decision(words), position, atom))
        }
        1 => shown(alloc, &next_pass(&team, &decision(words), lists.oal())),
        2 => {
            let from = words.number(LAST_POSITION);
            shown(
                alloc,
                &next_early(&team, &decision(words), lists.oal(), from),
            )
        }
        _ => Ok(String::new(alloc)),
    }
}
