//! Which numbers may be promised, and why another isn't.

ghost use Rattle.std.specs.Prelude.{◌≡◌, ◌<◌, ◌^◌, Some, None, MatchResult};
ghost use Rattle.tw_types.specs.Team.{IsSound};
ghost use Rattle.tw_types.specs.Refusals.{first_refusal};
ghost use Rattle.tw_types.specs.Promises.{number_tests};
ghost use Rattle.wheel.specs.Faults.{ballot_reason};

use crate::slots::slot_of;
use tw_types::Team;

/// Why a number may not be promised.
#[derive(Clone, Copy, Debug, PartialEq, Eq)]
pub enum BallotFault {
    /// It is more than one below the present slot, or more than the team's size and one above it.
    OutOfWindow,
    /// It isn't above this number, which was promised.
    Promised(u64),
}

/// Why an election isn't answered.
#[derive(Clone, Copy, Debug, PartialEq, Eq)]
pub enum ElectFault {
    /// The process was restarted too short a time ago.
    Quarantine,
    /// The number is too far from the present slot, or isn't of the one who asks.
    OutOfWindow,
    /// The number isn't above this one, which was promised.
    Promised(u64),
    /// The process sees no reason for an election.
    Unwilling,
}

/// Whether `number` may be promised at team time `t`, in microseconds, by a process that promised `promised` last.
///
/// `OutOfWindow` comes exactly where the number is out of the window around the present slot, and `Promised(promised)`
/// exactly where it is in the window and not above `promised`. Whether the process is in quarantine isn't asked.
pub fn may_promise(team: &Team, promised: u64, number: u64, t: u64) -> Result<(), BallotFault>
    requires sound { IsSound team.now }
    requires number { number < 2 ^ 61 }
    requires reading { t < 2 ^ 60 }
    ensures exact { MatchResult result
        (λ _. first_refusal (number_tests team.now promised number t) ≡ None)
        (λ fault. first_refusal (number_tests team.now promised number t) ≡ Some (ballot_reason fault)) }
{
    let slot = slot_of(team, t);
    if number + 1 < slot || slot + u64::from(team.n) + 1 < number {
        return Err(BallotFault::OutOfWindow);
    }
    if number <= promised {
        return Err(BallotFault::Promised(promised));
    }
    Ok(())
}
