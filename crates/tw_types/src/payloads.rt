//! Where the payloads of updates are found.

use crate::message::{Kept, UpdateId};

/// Updates whose payloads are there.
pub trait Payloads {
    ghost use Rattle.std.specs.Prelude.{◌≡◌, List, option_copied};
    ghost use Rattle.tw_types.specs.declared.message.Kept.{Kept as KeptSeen};
    ghost use Rattle.tw_types.specs.Updates.{find_update};

    /// These updates, in the order in which they are looked for.
    ghost payloads: { Self → List KeptSeen };

    /// The first of them with this id. None exactly where there is none.
    fn find(&self, id: &UpdateId) -> Option<&Kept>
        ensures { option_copied result ≡ find_update id.now (payloads self.now) };
}
