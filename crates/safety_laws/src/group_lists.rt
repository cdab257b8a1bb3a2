//! The lists of updates that groups have: they are whole, and what a majority acknowledged begins the list of each later group. Each
//! law is the contract of a function that does nothing.

ghost use Rattle.std.specs.Prelude.{List, ◌≡◌, ◌≤◌, ◌<◌, ◌/◌, ◌+◌, ℕ, true, Some, IfSome, take, length, count_by};
ghost use Rattle.std.specs.List.{AllByRecursion};
ghost use Rattle.tw_machine.specs.Types.{Team, Report, Seat, Ballot, Step};
ghost use Rattle.tw_types.specs.Items.{In};
ghost use Rattle.tw_types.specs.Process.{Process};
ghost use Rattle.tw_types.specs.Reports.{is_consistent};
ghost use Rattle.tw_types.specs.Team.{IsSound};
ghost use Rattle.tw_machine.specs.History.{history, list_of, Make};
ghost use Rattle.tw_machine.specs.World.{Admissible, world};
ghost use Rattle.safety_laws.specs.Acknowledged.{has_acked, Supported, AddsLast};
ghost use Rattle.safety_laws.specs.Beginnings.{IsBeginning, IsEndOfKnown, list_at};
ghost use Rattle.safety_laws.specs.Groups.{BeginsAbove};
ghost use Rattle.safety_laws.specs.Lists.{AllListed, IsListOf};

/// Acknowledged entries last: where a majority of the team has acknowledged so many entries of a made decision, the list of each group
/// made with a greater number, before or after it, has as many and begins with the same.
pub fn acknowledged_entries_last()
    ensures { (team : Team) (past : List Step) (m later : Make) (l : ℕ) → IsSound team → Admissible team past →
        In m (history team past).makes → In later (history team past).makes →
        team.n / 2 + 1 ≤ count_by (has_acked l) m.making.decision.seats.items → BeginsAbove m.making.decision.group later →
        (l ≤ length later.log) × (take l later.log ≡ take l m.log) }
{}

/// Logs are the group's list: the list of each running process is, from its base on, what it knows of the list of the decision that it
/// took or follows; that of an informed one ends where that list does, and is empty where it took none.
pub fn logs_are_the_groups_list()
    ensures { (team : Team) (past : List Step) (who : ℕ) → IsSound team → Admissible team past →
        IfSome ((world team past).process_of who) (IsEndOfKnown (history team past).makes) }
{}

/// Lists are whole: each made decision's list is that of what it stands on, and then what was added (`listed`); and its length, low,
/// window, mark and each seat's next number are those of the list, in which each member's entries go by one, and timed ones that aren't
/// late ascend (`whole`).
pub fn lists_are_whole()
    ensures listed { (team : Team) (past : List Step) → IsSound team → Admissible team past → AllListed (history team past).makes }
    ensures whole { (team : Team) (past : List Step) → IsSound team → Admissible team past →
        AllByRecursion IsListOf (history team past).makes }
{}

/// Supports tell lengths: each support in a made decision says how long the list was that its member's decision of that group and
/// reading ended.
pub fn supports_tell_lengths()
    ensures { (team : Team) (past : List Step) → IsSound team → Admissible team past →
        AllByRecursion (λ (m : Make). AllByRecursion (Supported (history team past).makes m) m.making.decision.seats.items)
        (history team past).makes }
{}

/// Consistent reports begin the best list: of each report in a ballot that goes with the ballot's best decision, the first entries of
/// its decision's list, as many as it reports, begin the list of best.
pub fn consistent_reports_begin_the_best_list()
    ensures { (team : Team) (past : List Step) (who : ℕ) → IsSound team → Admissible team past →
        IfSome ((world team past).process_of who) (λ (p : Process). (b : Ballot) → p.ballot ≡ Some b →
        AllByRecursion (λ (r : Report). is_consistent b.best r ≡ true →
        IsBeginning (take r.length (list_at (history team past).makes r.group r.turn)) (list_of (history team past).makes b.best))
        b.reports.items) }
{}

/// Silent groups add nothing: a made decision's list is that of a decision of the last group at or below its own in which something
/// was appended, and empty where there is none.
pub fn silent_groups_add_nothing()
    ensures { (team : Team) (past : List Step) (m : Make) → IsSound team → Admissible team past → In m (history team past).makes →
        AddsLast (history team past).makes m }
{}
