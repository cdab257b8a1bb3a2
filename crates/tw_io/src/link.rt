//! What a link is: an address that is bound, send calls, and datagrams that arrive.

use crate::{Addr, Came};
use std::error::Error;
use std::fmt;

/// A link could not be bound, or nothing could be sent or received on it. One of its two counts rose.
#[derive(Clone, Copy, Debug, PartialEq, Eq)]
pub struct LinkFailed;

impl fmt::Display for LinkFailed {
    fn fmt<W: fmt::Write>(&self, f: &mut fmt::Formatter<W>) -> fmt::Result {
        f.write_str("the link failed")
    }
}

impl Error for LinkFailed {}

/// A way for datagrams, which may be lost.
pub trait Link {
    ghost use Rattle.std.specs.Prelude.{◌≡◌, ◌≤◌, ℕ, List, Option, Some, None, IfOk, IfSome, OnOk, OnErr};
    ghost use Rattle.tw_io.specs.Faults.{IsRisen};
    ghost use Rattle.tw_io.specs.Link.{Binding, Sends, Arrival, bound_to, one_sent, one_lost, next_arrival, arrivals_after, came_of, StandsIn};

    /// How often the link was bound and where, where it tells that.
    ghost binding: { Self → Option Binding };

    /// The send calls so far, where the link tells them.
    ghost sends: { Self → Option Sends };

    /// What is to arrive, an item for each `recv` to come, where the link tells it.
    ghost arriving: { Self → Option (List (Option Arrival)) };

    /// How often `bind` or `recv` has failed.
    ghost faults: { Self → ℕ };

    /// How often `send` has failed.
    ghost losses: { Self → ℕ };

    /// Receives from now on at this address. A failed call binds nothing, and raises the count of faults.
    fn bind(&mut self, own: Addr) -> Result<(), LinkFailed>
        ensures bound { OnOk result ((b : Binding) → binding self.old ≡ Some b → binding self.new ≡ Some (bound_to own b)) }
        ensures untold { binding self.old ≡ None → binding self.new ≡ None }
        ensures err { OnErr result (binding self.new ≡ binding self.old) }
        ensures sends { sends self.new ≡ sends self.old }
        ensures arriving { arriving self.new ≡ arriving self.old }
        ensures losses { losses self.new ≡ losses self.old }
        ensures monotone { faults self.old ≤ faults self.new }
        ensures cause { OnErr result (IsRisen (faults self.old) (faults self.new)) };

    /// Sends one datagram, which may be lost on its way even where the call is Ok. A failed call sends nothing and
    /// raises the count of losses, and still counts among the send calls.
    fn send(&mut self, to: Addr, bytes: &[u8]) -> Result<(), LinkFailed>
        ensures sent { OnOk result ((s : Sends) → sends self.old ≡ Some s → sends self.new ≡ Some (one_sent to bytes.now s)) }
        ensures lost { OnErr result ((s : Sends) → sends self.old ≡ Some s → sends self.new ≡ Some (one_lost s)) }
        ensures untold { sends self.old ≡ None → sends self.new ≡ None }
        ensures binding { binding self.new ≡ binding self.old }
        ensures arriving { arriving self.new ≡ arriving self.old }
        ensures faults { faults self.new ≡ faults self.old }
        ensures monotone { losses self.old ≤ losses self.new }
        ensures cause { OnErr result (IsRisen (losses self.old) (losses self.new)) };

    /// Puts the next datagram that has come at the front of `buf`, after at most `wait` microseconds. None where there
    /// is none. One that is longer than 4096 bytes is cut. A failed call takes nothing, and raises the count of faults.
    fn recv(&mut self, buf: &mut [u8; 4096], wait: u64) -> Result<Option<Came>, LinkFailed>
        ensures within { IfOk result (λ answer. IfSome answer (λ came. came.len ≤ 4096)) }
        ensures came { IfOk result (λ answer. (items : List (Option Arrival)) → arriving self.old ≡ Some items → answer ≡ came_of (next_arrival items)) }
        ensures bytes { OnOk result ((items : List (Option Arrival)) → arriving self.old ≡ Some items → StandsIn (next_arrival items) buf.new) }
        ensures after { OnOk result ((items : List (Option Arrival)) → arriving self.old ≡ Some items → arriving self.new ≡ Some (arrivals_after items)) }
        ensures untold { arriving self.old ≡ None → arriving self.new ≡ None }
        ensures err { OnErr result (arriving self.new ≡ arriving self.old) }
        ensures binding { binding self.new ≡ binding self.old }
        ensures sends { sends self.new ≡ sends self.old }
        ensures losses { losses self.new ≡ losses self.old }
        ensures monotone { faults self.old ≤ faults self.new }
        ensures cause { OnErr result (IsRisen (faults self.old) (faults self.new)) };
}
