//! Datagrams that are used only in time.

use crate::state::State;
use late_detector::{Rating, rate};
use tw_num::Moment;
use tw_types::{Head, Reason};

impl State {
    ghost use Rattle.std.specs.Prelude.{◌≡◌, ◌<◌, ◌^◌, IfOk};
    ghost use Rattle.tw_types.specs.Ranges.{HeadFits};
    ghost use Rattle.tw_machine.specs.Control.{rate_of, timely_reading};
    ghost use Rattle.node_core.specs.Moments.{MomentFits};

    /// The reading of team time at which a packet with this head is used, or why it isn't: it can't be rated, it came late, or
    /// the process has no reading.
    pub fn timely_reading(&self, now: &Moment, head: &Head) -> Result<u64, Reason>
        requires now { MomentFits now.now }
        requires head { HeadFits head.now }
        ensures exact { result ≡ timely_reading (rate_of self.now.team now.now head.now) now.now.reading }
        ensures range { IfOk result (λ t. t < 2 ^ 60) }
    {
        match rate(&self.team, head, now.interval, now.h) {
            Rating::Unrated => Err(Reason::Unrated),
            Rating::Late(bound) => Err(Reason::Late(bound)),
            Rating::Timely(_) => now.reading.ok_or(Reason::Unsynced),
        }
    }
}
