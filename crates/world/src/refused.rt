//! Why a step isn't taken.

use tw_num::WantOfMemory;
use tw_types::Cause;

/// Why a step isn't taken, in the order in which the causes are looked for.
#[derive(Clone, Copy, Debug, PartialEq, Eq)]
pub enum Refused {
    /// The team time falls.
    Time,
    /// The clock drifts by more than the team allows, against an earlier reading of the same process.
    Drift,
    /// A start of a process that runs, or that doesn't read above each of its earlier readings, or a second first start.
    Start,
    /// The process isn't running.
    NotRunning,
    /// The datagram wasn't sent yet, or went to another process.
    NoDatagram,
    /// The interval doesn't hold the team time of its step.
    Reference,
    /// There was no memory for the step, which may follow.
    WantOfMemory,
}

impl Refused {
    ghost use Rattle.std.specs.Prelude.{◌≡◌};
    ghost use Rattle.world.specs.Causes.{cause_told};

    /// The cause by which the step may not follow the steps before it. Want of memory has none.
    pub fn cause(self) -> Option<Cause>
        ensures { result ≡ cause_told self }
    {
        match self {
            Refused::Time => Some(Cause::Time),
            Refused::Drift => Some(Cause::Drift),
            Refused::Start => Some(Cause::Start),
            Refused::NotRunning => Some(Cause::NotRunning),
            Refused::NoDatagram => Some(Cause::NoDatagram),
            Refused::Reference => Some(Cause::Reference),
            Refused::WantOfMemory => None,
        }
    }
}

impl From<WantOfMemory> for Refused {
    ghost use Rattle.std.specs.Prelude.{◌≡◌};
    ghost use Rattle.world.specs.declared.refused.Refused.TheVariants as refused;

    ghost from_gives = { λ _ why. why ≡ refused.WantOfMemory };

    fn from(_: WantOfMemory) -> Self {
        Refused::WantOfMemory
    }
}
