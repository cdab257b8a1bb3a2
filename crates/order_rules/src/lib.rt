//! Which pending updates the maker of a next decision adds to the list, and the decision with them.
//!
//! Rules held here: a member's updates are added in the order of their numbers, from its seat's next one on; timed updates
//! wait until they are ripe; of those that may come timed ones go first, by their stamps, and others by who sent them; a timed
//! one behind a later stamp is late, and doesn't move the mark. What is added has room in the window, in the list behind what
//! was passed, and in the positions that there are. It is the longest list for which all of this holds: the code takes one
//! entry after the other.
//!
//! Timed updates follow Mishra, Fetzer and Cristian's Timewheel in outline. The exact rules are this project's own.
#![tactic(auto)]

mod appending;
mod entries;
mod next;

pub use appending::append;
