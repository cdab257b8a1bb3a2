//! The first checks of a decision that is received. What becomes of it is the process's to do.

ghost use Rattle.std.specs.Prelude.{◌≡◌, Some, None, MatchResult, IfOk, option_copied};
ghost use Rattle.tw_types.specs.Decisions.{has_seat};
ghost use Rattle.tw_types.specs.Refusals.{first_refusal};
ghost use Rattle.tw_types.specs.Taking.{is_old, is_barred, taking_tests, is_followed};
ghost use Rattle.decider.specs.Checks.{path_of, take_reason};

use tw_types::{Decision, Member};

/// What becomes of a decision that passed the first checks.
#[derive(Clone, Copy, Debug, PartialEq, Eq)]
pub enum Path {
    /// It is taken, if the list of updates allows it.
    Take,
    /// It is followed: the process is blank, and isn't a member of the group that it promised.
    Follow,
}

/// Why a decision isn't taken.
#[derive(Clone, Copy, Debug, PartialEq, Eq)]
pub enum TakeFault {
    /// It isn't above the one that was taken or followed.
    Old,
    /// The informed process has no seat in it.
    NotMember,
    /// It isn't of this group, which was promised; to a blank process, it is of one below.
    Promised(u64),
}

/// The first checks of a decision `d` that member `me` received. It took or follows `view`, promised the group `promised`
/// last, and is informed or blank.
///
/// Each fault comes exactly where it is the first one, in the order of `TakeFault`. `Follow` comes exactly to a blank process
/// that isn't a member of the group that it promised.
pub fn first_check(
    view: Option<&Decision>,
    informed: bool,
    me: Member,
    promised: u64,
    d: &Decision,
) -> Result<Path, TakeFault>
    ensures faults { MatchResult result
        (λ _. first_refusal (taking_tests (option_copied view.entry) informed me promised d.now) ≡ None)
        (λ fault. first_refusal (taking_tests (option_copied view.entry) informed me promised d.now) ≡ Some (take_reason fault)) }
    ensures path { IfOk result (λ path. path ≡ path_of (is_followed informed me promised d.now)) }
{
    if is_old(view, d) {
        return Err(TakeFault::Old);
    }
    let is_member = has_seat(me, d);
    if informed && !is_member {
        return Err(TakeFault::NotMember);
    }
    if is_barred(informed, promised, d.group) {
        return Err(TakeFault::Promised(promised));
    }
    if informed || (is_member && d.group == promised) {
        Ok(Path::Take)
    } else {
        Ok(Path::Follow)
    }
}

fn is_old(view: Option<&Decision>, d: &Decision) -> bool
    ensures { result ≡ is_old (option_copied view.entry) d.now }
{
    let (group, turn) = match view {
        None => (0, 0),
        Some(view) => (view.group, view.turn),
    };
    d.group < group || (d.group == group && d.turn <= turn)
}

fn has_seat(me: Member, d: &Decision) -> bool
    ensures { result ≡ has_seat me d.now }
{
    d.seats.iter().any(|seat| seat.member == me)
}

fn is_barred(informed: bool, promised: u64, group: u64) -> bool
    ensures { result ≡ is_barred informed promised group }
{
    if informed {
        group != promised
    } else {
        group < promised
    }
}
