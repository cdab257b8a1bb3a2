//! How the best decision's list stands to the owner's.

ghost use Rattle.std.specs.Prelude.{◌≡◌, ◌+◌, ◌<◌, ◌≤◌, ◌^◌, nat_lt, not, find};
ghost use Rattle.std.specs.Option.{option_map};
ghost use Rattle.tw_types.specs.declared.message.Entry.{Entry};
ghost use Rattle.tw_types.specs.Decisions.{decision_length};
ghost use Rattle.tw_types.specs.Logs.{log_room};
ghost use Rattle.tw_types.specs.Updates.{has_update};
ghost use Rattle.tw_types.specs.Waiting.{entries_from};

use oal::Oal;
use tw_types::{Decision, Entry, Payloads, UpdateId};

/// A list may be so far ahead of what was passed.
const ROOM: u64 = 64;

/// The position behind the last entry of a decision's list.
pub(crate) fn length(d: &Decision) -> u64
    requires { d.now.low < 2 ^ 61 }
    ensures { result ≡ decision_length d.now }
{
    d.low + d.window.len() as u64
}

/// Whether a decision's list ends too far ahead of what is passed of the owner's.
pub(crate) fn is_behind(log: &Oal, d: &Decision) -> bool
    requires { d.now.low < 2 ^ 61 }
    ensures { result ≡ nat_lt (log.now.passed + log_room) (decision_length d.now) }
{
    length(d).saturating_sub(log.passed()) > ROOM
}

/// The entries of a decision's window at this position and behind it.
pub(crate) fn entries_from(position: u64, d: &Decision) -> &[Entry]
    requires { position ≤ decision_length d.now }
    ensures { result.now ≡ entries_from position d.now }
{
    &d.window[position.saturating_sub(d.low) as usize..]
}

/// The first of these entries whose payload is missing.
pub(crate) fn first_missing<P: Payloads>(entries: &[Entry], p: &P) -> Option<UpdateId>
    ensures { result ≡ option_map (λ (e : Entry). e.id) (find (λ (e : Entry). not (has_update e.id (P.payloads p.now))) entries.now) }
{
    for entry in entries {
        if p.find(&entry.id).is_none() {
            return Some(entry.id);
        }
    }
    None
}
