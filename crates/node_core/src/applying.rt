//! What the updates that a process passes make of its machine.

ghost use Rattle.std.specs.Prelude.{◌≡◌, map, [], ◌∷◌};
ghost use Rattle.app_table.specs.Machine.{content_after};
ghost use Rattle.tw_types.specs.declared.outputs.Pass.{Pass as PassSeen};
ghost use Rattle.tw_machine.specs.Applied.{is_applied, payloads_in};

use app_table::Machine;
use tw_types::{Kept, Order, Pass};

/// Whether an update is applied as its position is passed.
fn is_applied(kept: &Kept) -> bool
    ensures { result ≡ is_applied kept.now }
{
    kept.entry.order != Order::Unordered && !kept.entry.late
}

/// Applies the payload of an update that is passed, if it is applied.
fn apply_one<A: Machine>(kept: &Kept, machine: &mut A)
    ensures { machine.new ≡ content_after A.after machine.old (payloads_in (kept.now ∷ [])) }
{
    if is_applied(kept) {
        machine.apply(kept.payload.as_slice());
    }
}

/// Applies the payloads of what is passed, in the order of the positions.
pub fn apply_passes<A: Machine>(passes: &[Pass], machine: &mut A)
    ensures { machine.new ≡ content_after A.after machine.old (payloads_in (map (λ (p : PassSeen). p.kept) passes.now)) }
{
    for pass in passes {
        apply_one(&pass.kept, machine);
    }
}
