//! What processes promise over all their lives, and why there is one group at a reading. Each law is the contract of a function
//! that does nothing.

ghost use Rattle.std.specs.Prelude.{List, ◌≡◌, ◌<◌, ℕ, ◌∷◌, Some, IfSome};
ghost use Rattle.std.specs.List.{AllByRecursion};
ghost use Rattle.tw_machine.specs.Types.{Team, Step, Ballot, Decision};
ghost use Rattle.tw_types.specs.Team.{IsSound};
ghost use Rattle.tw_machine.specs.History.{history, Make, Up};
ghost use Rattle.tw_machine.specs.World.{Admissible, world};
ghost use Rattle.safety_laws.specs.Ascend.{Ascends};
ghost use Rattle.safety_laws.specs.Outlived.{OutlivesAll};
ghost use Rattle.safety_laws.specs.NotAhead.{IsNearPromise};
ghost use Rattle.safety_laws.specs.Windows.{IsInWindow};
ghost use Rattle.tw_types.specs.Process.{Process};
ghost use Rattle.tw_machine.specs.Applied.{meaning_of};
ghost use Rattle.tw_machine.specs.Dispatches.{Dispatch};
ghost use Rattle.tw_machine.specs.Rows.{rows_of};
ghost use Rattle.tw_machine.specs.SafeRows.{SafeRows};
ghost use Rattle.safety_laws.specs.Effects.{written};
ghost use Rattle.safety_laws.specs.Groups.{HasMajority, StandsOn, BeginsAbove};
ghost use Rattle.safety_laws.specs.Held.{HoldsWell, HoldsBelow};
ghost use Rattle.tw_types.specs.Items.{In};
ghost use Rattle.safety_laws.specs.Made.{AllArise, IsUnderPromise, KeepsMade, WasMade, WasMadeIfAny, IsBeginOf, BallotHolds, carried};
ghost use Rattle.safety_laws.specs.Memory.{Remembers};
ghost use Rattle.safety_laws.specs.Once.{AllOnce, IsAboveAll};
ghost use Rattle.safety_laws.specs.Still.{StandsStill};
ghost use Rattle.safety_laws.specs.Supports.{AllSupported};
ghost use Rattle.safety_laws.specs.Under.{IsUnder};

use app_table::Machine;

/// Promises ascend, over every restart of their process: each is of a greater number than all that the process promised before,
/// in whatever life (`ascend`); it is given near the team time of its step (`near`), and its number is near the slot of its
/// reading (`window`); and one of a later life reads behind the end of each lease that the process gave in an earlier one
/// (`outlived`), since who lost its memory waits.
pub fn promises_ascend()
    ensures ascend { (team : Team) (past : List Step) → IsSound team → Admissible team past → Ascends (history team past).promises }
    ensures near { (team : Team) (past : List Step) → IsSound team → Admissible team past →
        AllByRecursion (IsNearPromise team.eps) (history team past).promises }
    ensures window { (team : Team) (past : List Step) → IsSound team → Admissible team past →
        AllByRecursion (IsInWindow team) (history team past).promises }
    ensures outlived { (team : Team) (past : List Step) → IsSound team → Admissible team past →
        AllByRecursion (OutlivesAll team (history team past).makes) (history team past).promises }
{}

/// Decisions are of the promised group: a decision that a process has after a step, and hadn't before it, is of the group that it
/// had promised last before that step (`under`); one that it holds to be taken is of the group that it had promised when it was
/// held, names it, and is above the last one (`held`); one that it holds to make a group from is of a lower group than it had promised
/// when it was held (`below`); who made a decision had promised its group, in that life (`makes`); and no two makes are of one group and
/// turn (`once`).
pub fn decisions_are_promised()
    ensures under { (team : Team) (past : List Step) (s : Step) → IsSound team → Admissible team (s ∷ past) → IsUnder team past s }
    ensures held { (team : Team) (past : List Step) (who : ℕ) → IsSound team → Admissible team past →
        IfSome ((world team past).process_of who) HoldsWell }
    ensures below { (team : Team) (past : List Step) (who : ℕ) → IsSound team → Admissible team past →
        IfSome ((world team past).process_of who) HoldsBelow }
    ensures makes { (team : Team) (past : List Step) → IsSound team → Admissible team past →
        AllByRecursion (IsUnderPromise (history team past).promises) (history team past).makes }
    ensures once { (team : Team) (past : List Step) → IsSound team → Admissible team past → AllOnce (history team past).makes }
{}

/// Reports are of promises: each report in a ballot was given by its process with its promise of the ballot's number, of each
/// process at most one, and the ballot's best decision is that of its best informed report (`ballots`); of these each group comes,
/// and each next decision follows one (`arise`). Each decision that a process keeps (`kept`) or a datagram carries (`carried`) was
/// made, and has the start and the members of the first one of its group (`first`). Below its promise a process reports what it
/// reported then, but for its support and its reading (`still`).
pub fn reports_are_of_promises()
    ensures ballots { (team : Team) (past : List Step) (who : ℕ) → IsSound team → Admissible team past →
        IfSome ((world team past).process_of who) (λ (p : Process).
        (b : Ballot) → p.ballot ≡ Some b → BallotHolds team past (written team past) who p b) }
    ensures arise { (team : Team) (past : List Step) → IsSound team → Admissible team past →
        AllArise team (history team past).promises (history team past).makes }
    ensures kept { (team : Team) (past : List Step) (who : ℕ) → IsSound team → Admissible team past →
        IfSome ((world team past).process_of who) (KeepsMade (history team past).makes) }
    ensures carried { (team : Team) (past : List Step) → IsSound team → Admissible team past →
        AllByRecursion (λ (k : Dispatch). WasMadeIfAny (history team past).makes (carried k.datagram.body)) (world team past).sent }
    ensures first { (team : Team) (past : List Step) (d : Decision) → IsSound team → Admissible team past →
        WasMade (history team past).makes d → (k : Make) × In k (history team past).makes × IsBeginOf d k }
    ensures still { (team : Team) (past : List Step) (who : ℕ) → IsSound team → Admissible team past →
        IfSome ((world team past).process_of who) (StandsStill (written team past)) }
{}

/// Supports are of decisions: each support in a made decision is that of a make of its member, of that group and no later turn, with
/// its reading and its length (`supports`); and until a process crashes its last support isn't below any that it gave, while one
/// that lost its memory gave none in the life that it is in (`remembers`).
pub fn supports_are_of_decisions()
    ensures supports { (team : Team) (past : List Step) → IsSound team → Admissible team past → AllSupported (history team past).makes }
    ensures remembers { (team : Team) (past : List Step) (who : ℕ) → IsSound team → Admissible team past →
        IfSome ((world team past).process_of who) (Remembers past (written team past) who) }
{}

/// Lost supports are of older groups: the last decision of an informed process isn't below any that it made, in this life or in an
/// earlier one.
pub fn lost_supports_are_older()
    ensures above { (team : Team) (past : List Step) (who : ℕ) → IsSound team → Admissible team past →
        IfSome ((world team past).process_of who) (IsAboveAll (written team past) who) }
{}

/// A majority binds later groups: a group above that of a decision with supports of a majority stands on a decision of that group or a
/// greater one, whichever of the two was made first.
pub fn majorities_bind_later_groups()
    ensures binds { (team : Team) (past : List Step) (m later : Make) → IsSound team → Admissible team past →
        In m (history team past).makes → In later (history team past).makes → HasMajority team m.making.decision →
        BeginsAbove m.making.decision.group later → StandsOn later m.making.decision.group }
{}

/// Leases outlast older groups: where a process was up in a group, each made group above that one starts above its reading, whichever
/// was first.
pub fn leases_outlast_older_groups()
    ensures outlast { (team : Team) (past : List Step) (u : Up) (later : Make) → IsSound team → Admissible team past →
        In u (history team past).ups → In later (history team past).makes →
        BeginsAbove u.group later → u.reading < later.making.decision.start }
{}

/// The rows of each schedule are safe, with any machine, however looks show what it has: one started group at a reading, same
/// deliveries in one group, strong deliveries that last, backed deliveries, timed order, equal tables, and leased support.
pub fn rows_are_safe<A: Machine>()
    ensures rows { (shown : A → List (ℕ × ℕ)) (team : Team) (past : List Step) → IsSound team → Admissible team past →
        SafeRows team (rows_of (meaning_of A.empty A.after shown) team past) }
{}
