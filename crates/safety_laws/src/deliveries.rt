//! What processes deliver: members of a group agree at each position, and what was delivered strong or strict lasts. Each law is the
//! contract of a function that does nothing.

ghost use Rattle.std.specs.Prelude.{◌≡◌, ℕ, true, List, Option, Some, IfSome};
ghost use Rattle.std.specs.List.{AllByRecursion};
ghost use Rattle.tw_machine.specs.Types.{Decision, Team, Step};
ghost use Rattle.tw_types.specs.Beliefs.{Informed, is_informed};
ghost use Rattle.tw_types.specs.Process.{Process};
ghost use Rattle.tw_types.specs.Team.{IsSound};
ghost use Rattle.tw_machine.specs.Applied.{meaning_of, table_of};
ghost use Rattle.tw_machine.specs.History.{Line, list_of, history};
ghost use Rattle.tw_machine.specs.Rows.{rows_of};
ghost use Rattle.tw_machine.specs.SafeRows.{SameDeliveries, StrongLast, Backed, TimedOrder, EqualTables};
ghost use Rattle.tw_machine.specs.World.{world, Admissible};
ghost use Rattle.safety_laws.specs.Delivered.{PassesAscend, IsBacked, IsPassedOf};
ghost use Rattle.safety_laws.specs.Early.{AreTold, IsMarkedOrLost, DeliveredOnce};
ghost use Rattle.safety_laws.specs.Ids.{IsOfSend};
ghost use Rattle.safety_laws.specs.Tables.{content_at};

use app_table::Machine;

/// Deliveries are of made lists. A member passes positions in ascent (`ascend`). Each line is of a made decision of its group and
/// turn: what it tells stands in that decision's list, where it has a position, and unless it is passed late the decision fulfils
/// its atomicity there; what went early while it waited is weak (`backed`). Each tells an update as it was sent (`keep`). What a
/// running process passed in its incarnation is below its cursor, and stands in its list (`passed`).
pub fn deliveries_are_of_made_lists()
    ensures ascend { (team : Team) (past : List Step) → IsSound team → Admissible team past → PassesAscend (history team past).lines }
    ensures backed { (team : Team) (past : List Step) → IsSound team → Admissible team past →
        AllByRecursion (IsBacked team (history team past).makes) (history team past).lines }
    ensures keep { (team : Team) (past : List Step) → IsSound team → Admissible team past →
        AllByRecursion (λ (x : Line). IsOfSend (history team past).sends x.delivered.update) (history team past).lines }
    ensures passed { (team : Team) (past : List Step) (who : ℕ) → IsSound team → Admissible team past →
        IfSome ((world team past).process_of who) (λ (p : Process). AllByRecursion (IsPassedOf p) (history team past).lines) }
{}

/// Tables are of lists: the table of an informed process is what the list of its last decision makes of the empty one, of the
/// positions below its cursor (`tables`). So two looks in one group that passed as much show the same table (`equal`).
pub fn tables_are_of_lists<A: Machine>()
    ensures tables { (shown : A → List (ℕ × ℕ)) (team : Team) (past : List Step) (who : ℕ) → IsSound team → Admissible team past →
        IfSome ((world team past).process_of who) (λ (p : Process). (last : Option Decision) → p.belief ≡ Informed last →
        table_of (meaning_of A.empty A.after shown) p
        ≡ Some (content_at (meaning_of A.empty A.after shown) (list_of (history team past).makes last) p.log.passed)) }
    ensures equal { (shown : A → List (ℕ × ℕ)) (team : Team) (past : List Step) → IsSound team → Admissible team past →
        EqualTables (rows_of (meaning_of A.empty A.after shown) team past) }
{}

/// Members deliver alike: where two rows have one group, what their processes passed so far agrees at each position; within an
/// incarnation an update is delivered once at most, and what is passed as delivered earlier was, in an earlier row.
pub fn members_deliver_alike<A: Machine>()
    ensures { (shown : A → List (ℕ × ℕ)) (team : Team) (past : List Step) → IsSound team → Admissible team past →
        SameDeliveries (rows_of (meaning_of A.empty A.after shown) team past) }
{}

/// Strong deliveries last: what is passed as strong or strict and not late has its position in that group and in each greater one,
/// whichever was made first, and what is delivered early as such has one position in them, alone.
pub fn strong_deliveries_last<A: Machine>()
    ensures { (shown : A → List (ℕ × ℕ)) (team : Team) (past : List Step) → IsSound team → Admissible team past →
        StrongLast (rows_of (meaning_of A.empty A.after shown) team past) }
{}

/// Strong deliveries are backed: what is passed as strong and not late is then in the lists of a majority of the team in that group,
/// and what is passed as strict in the list of each member.
pub fn strong_deliveries_are_backed<A: Machine>()
    ensures { (shown : A → List (ℕ × ℕ)) (team : Team) (past : List Step) → IsSound team → Admissible team past →
        Backed team (rows_of (meaning_of A.empty A.after shown) team past) }
{}

/// Timed deliveries come in order: within an incarnation by their stamps, then their proposers, then their numbers, across groups.
pub fn timed_deliveries_come_in_order<A: Machine>()
    ensures { (shown : A → List (ℕ × ℕ)) (team : Team) (past : List Step) → IsSound team → Admissible team past →
        TimedOrder (rows_of (meaning_of A.empty A.after shown) team past) }
{}

/// Marks have their lines: what a running process has with a mark, in its list, pending or with the decision that it holds, went
/// early at it in its incarnation (`marks`). A lost mark is lost for good: what went early at an informed process and isn't marked
/// there any more, in its list or as pending, is in no list of a group that names the process and isn't below its last decision's; and
/// its sender has no seat in that group, or a greater group that a majority came to support was made before it (`lost`). So each
/// update is delivered once in an incarnation, and what is passed as delivered earlier went early before (`once`).
pub fn updates_are_delivered_once()
    ensures marks { (team : Team) (past : List Step) (who : ℕ) → IsSound team → Admissible team past →
        IfSome ((world team past).process_of who) (λ (p : Process). AreTold (history team past).lines p) }
    ensures lost { (team : Team) (past : List Step) (who : ℕ) → IsSound team → Admissible team past →
        IfSome ((world team past).process_of who) (λ (p : Process). is_informed p.belief ≡ true →
        AllByRecursion (IsMarkedOrLost team (history team past).makes p) (history team past).lines) }
    ensures once { (team : Team) (past : List Step) → IsSound team → Admissible team past → DeliveredOnce (history team past).lines }
{}
