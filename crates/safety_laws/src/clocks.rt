//! What the clocks of every admissible schedule owe to team time. Each law is the contract of a function that does nothing.

ghost use Rattle.std.specs.Prelude.{◌≡◌, ◌≢◌, ◌≤◌, ℕ, true, List, ◌∷◌, None, IfSome, reverse};
ghost use Rattle.std.specs.List.{AllByRecursion};
ghost use Rattle.tw_machine.specs.Types.{Team, Act, Step, RowAnswer, Reason};
ghost use Rattle.tw_types.specs.Team.{IsSound};
ghost use Rattle.tw_num.specs.Interval.{Holds};
ghost use Rattle.tw_num.specs.Rate.{Timely, interval_bound, IfRated};
ghost use Rattle.tw_types.specs.Row.{Row};
ghost use Rattle.tw_types.specs.Process.{Process};
ghost use Rattle.tw_machine.specs.World.{world, Admissible};
ghost use Rattle.tw_machine.specs.Rows.{rows_of};
ghost use Rattle.tw_machine.specs.Applied.{meaning_of};
ghost use Rattle.tw_machine.specs.Dispatches.{Dispatch};
ghost use Rattle.tw_machine.specs.Hearing.{trip_bound, told};
ghost use Rattle.safety_laws.specs.Clocks.{MayRead, ClockHolds, SentWell, Covers, own_interval, rate_at, EachReadsNear, IsReceipt};
ghost use Rattle.tw_machine.specs.ClockLaw.{ReadsWell};

use app_table::Machine;

/// Clocks tell team time, whatever the schedule: a process's interval holds it at each of its steps and from then on, a
/// printed reading is at most `eps` microseconds away from it, no intervals of a process contradict each other, and each
/// interval that a datagram tells held team time when the datagram was sent. This rests on hardware clocks that keep the
/// team's drift bound, over crashes too, and on references that hold team time; datagrams may be late, lost and repeated, and
/// processes may crash and return. Rows are those of any machine, however looks show what it has.
pub fn clocks_hold_team_time<A: Machine>()
    ensures interval { (team : Team) (past : List Step) (s : Step) → IsSound team →
        Admissible team (s ∷ past) →
        IfSome ((world team (s ∷ past)).process_of s.who) (ClockHolds team.ppm s.t s.h) }
    ensures later { (team : Team) (past : List Step) (who t h : ℕ) → IsSound team →
        Admissible team past → MayRead team.ppm who past t h →
        IfSome ((world team past).process_of who) (ClockHolds team.ppm t h) }
    ensures reading { (shown : A → List (ℕ × ℕ)) (team : Team) (past : List Step) → IsSound team →
        Admissible team past → ReadsWell (meaning_of A.empty A.after shown) team past }
    ensures rows { (shown : A → List (ℕ × ℕ)) (team : Team) (past : List Step) → IsSound team →
        Admissible team past →
        EachReadsNear team.eps (reverse past) (rows_of (meaning_of A.empty A.after shown) team past) }
    ensures disjoint { (team : Team) (past : List Step) (who : ℕ) → IsSound team →
        Admissible team past →
        IfSome ((world team past).process_of who) (λ (p : Process). p.timing.clock.disjoint ≡ None) }
    ensures not_dropped { (shown : A → List (ℕ × ℕ)) (team : Team) (past : List Step) → IsSound team →
        Admissible team past →
        AllByRecursion (λ (r : Row). r.answer ≢ RowAnswer.Dropped Reason.Disjoint) (rows_of (meaning_of A.empty A.after shown) team past) }
    ensures sent { (team : Team) (past : List Step) → IsSound team →
        Admissible team past →
        AllByRecursion SentWell (world team past).sent }
{}

/// No bound of a received datagram's delay is too low, whatever the schedule: neither the one by its round trip nor the one by
/// the receiver's own interval, so nor the one that the datagram's rate tells. A datagram that is timely at its receipt was on
/// its way for at most the time-out. `s.t` less `d.at` is the true delay.
pub fn bounds_cover_every_delay()
    ensures receipt { (team : Team) (past : List Step) (s : Step) (number : ℕ) →
        Admissible team (s ∷ past) → s.act ≡ Act.Recv number →
        (d : Dispatch) × IsReceipt team past s d × (d.to ≡ s.who) }
    ensures before { (team : Team) (past : List Step) (s : Step) (d : Dispatch) → IsSound team →
        Admissible team (s ∷ past) → IsReceipt team past s d → d.at ≤ s.t }
    ensures echo { (team : Team) (past : List Step) (s : Step) (d : Dispatch) → IsSound team →
        Admissible team (s ∷ past) → IsReceipt team past s d →
        IfSome (trip_bound team.ppm s.h d.datagram.head) (Covers s d) }
    ensures interval { (team : Team) (past : List Step) (s : Step) (d : Dispatch) → IsSound team →
        Admissible team (s ∷ past) → IsReceipt team past s d →
        IfSome ((world team past).process_of s.who) (λ (p : Process).
        IfSome (interval_bound (own_interval team s d p) d.datagram.head.interval) (Covers s d)) }
    ensures rate { (team : Team) (past : List Step) (s : Step) (d : Dispatch) → IsSound team →
        Admissible team (s ∷ past) → IsReceipt team past s d →
        IfSome ((world team past).process_of s.who) (λ (p : Process). IfRated (Covers s d) (rate_at team s d p)) }
    ensures timely { (team : Team) (past : List Step) (s : Step) (d : Dispatch) (bound : ℕ) → IsSound team →
        Admissible team (s ∷ past) → IsReceipt team past s d →
        IfSome ((world team past).process_of s.who) (λ (p : Process). rate_at team s d p ≡ Timely bound → Covers s d team.delta) }
    ensures told { (team : Team) (past : List Step) (s : Step) (d : Dispatch) → IsSound team →
        Admissible team (s ∷ past) → IsReceipt team past s d →
        IfSome (told team.ppm s.h d.datagram.head) (λ i. Holds i s.t) }
{}
