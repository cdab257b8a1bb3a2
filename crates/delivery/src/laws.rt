//! Laws on deliveries. They stand on functions that do nothing.

ghost use Rattle.std.specs.Prelude.{ℕ, ◌≡◌, ◌≤◌, true, List, length};
ghost use Rattle.std.specs.List.{range_with_len};
ghost use Rattle.tw_types.specs.declared.team.Team.{Team};
ghost use Rattle.tw_types.specs.declared.message.Atom.{Atom};
ghost use Rattle.tw_types.specs.declared.message.Atom.TheVariants.{Weak, Strong, Strict};
ghost use Rattle.tw_types.specs.declared.message.Kept.{Kept};
ghost use Rattle.tw_types.specs.declared.message.Decision.{Decision};
ghost use Rattle.tw_types.specs.Ranges.{DecisionFits};
ghost use Rattle.tw_types.specs.Beliefs.{Log};
ghost use Rattle.tw_types.specs.Updates.{WaitInOrder, next_weak};
ghost use Rattle.tw_types.specs.Deliveries.{fulfils, run, run_passed, IsLongestRun, Deliveries, delivered_by, log_delivered, weaks_marked, WeakStep};
ghost use Rattle.delivery.specs.InTurn.{DeliveredInTurn};
ghost use Rattle.delivery.specs.Behind.{EarlyBehindStrict};

/// Whoever passes while the next position passes, then marks the next early one from the cursor on until there is none, and
/// then marks the next weak one that waits until there is none, has delivered just what is to be delivered, in its order, and
/// has the log and the pending updates that are left then. One can always deliver so. The next weak one is the first of all that
/// are delivered, as `next_pass` and `next_early` say of theirs. Pending updates wait in order, as a store keeps them.
pub fn deliveries_in_turn()
    ensures only { (team : Team) (d : Decision) (log : Log) (pending : List Kept) (all : Deliveries) (log_after : Log) (pending_after : List Kept) →
        WaitInOrder pending → DeliveredInTurn team d log pending all log_after pending_after →
        (all ≡ delivered_by team d log pending) × ((log_after ≡ log_delivered team d log) × (pending_after ≡ weaks_marked pending)) }
    ensures always { (team : Team) (d : Decision) (log : Log) (pending : List Kept) → WaitInOrder pending →
        DeliveredInTurn team d log pending (delivered_by team d log pending) (log_delivered team d log) (weaks_marked pending) }
    ensures weak { (pending : List Kept) → WaitInOrder pending → WeakStep pending (next_weak pending) }
{}

/// The run has the positions from the cursor on that pass, as many as pass without a gap.
pub fn runs_are_longest()
    ensures neighbours { (team : Team) (d : Decision) (log : Log) → run team d log ≡ range_with_len log.passed (length (run team d log)) }
    ensures longest { (team : Team) (d : Decision) (log : Log) → IsLongestRun team d log (length (run team d log)) }
{}

/// What fulfils an atomicity at a position fulfils it at each lower one. In a decision that has a spelling, what fulfils strict
/// fulfils strong, and what fulfils strong fulfils weak.
pub fn atomicities_nest()
    ensures lower { (team : Team) (d : Decision) (atom : Atom) (i j : ℕ) → j ≤ i → fulfils team d i atom ≡ true → fulfils team d j atom ≡ true }
    ensures strong { (team : Team) (d : Decision) (i : ℕ) → DecisionFits team.n d → fulfils team d i Strict ≡ true → fulfils team d i Strong ≡ true }
    ensures weak { (team : Team) (d : Decision) (i : ℕ) → DecisionFits team.n d → fulfils team d i Strong ≡ true → fulfils team d i Weak ≡ true }
{}

/// Behind a run by a decision that has a spelling, an unordered strong update is delivered early only behind a strict one that
/// the cursor waits for, and an unordered strict one never is. The log has what isn't passed.
pub fn early_behind_strict()
    ensures { (team : Team) (d : Decision) (log : Log) → DecisionFits team.n d → log.base ≤ log.passed → EarlyBehindStrict team d (run_passed team d log) }
{}
