//! What was promised, made, sent and delivered in a schedule, and who was up when, is what its rows and its datagrams show of it. The laws on
//! groups speak of these lists, and a list that missed an item would make each of them easier.

ghost use Rattle.std.specs.Prelude.{◌≡◌, ◌≢◌, ◌<◌, ℕ, true, List, None, map, reverse, IfSome};
ghost use Rattle.std.specs.List.{AllByRecursion, flat_map};
ghost use Rattle.tw_machine.specs.Types.{Team, Step, RowAnswer};
ghost use Rattle.tw_types.specs.Team.{IsSound};
ghost use Rattle.tw_types.specs.Process.{Process};
ghost use Rattle.tw_machine.specs.Applied.{meaning_of};
ghost use Rattle.tw_machine.specs.Dispatches.{Dispatch};
ghost use Rattle.tw_machine.specs.History.{Promised, Make, SentUpdate, Line, Up, history};
ghost use Rattle.tw_machine.specs.Places.{Each, Exists};
ghost use Rattle.tw_machine.specs.Rows.{rows_of};
ghost use Rattle.tw_machine.specs.World.{world, Admissible};
ghost use Rattle.tw_types.specs.Items.{In};
ghost use Rattle.safety_laws.specs.Mail.{TellsGiven};
ghost use Rattle.safety_laws.specs.Seen.{IsMadeLineOf, IsSentLineOf, IsFlagOf, IsKeptPromise, IsLineOf, AreLinesOf, lines_of, shown_in, shown_of};

use app_table::Machine;

/// The history of a schedule is what is seen of it: each made line is of a make in the list and each make has such a line, the
/// same of each row that says up, and of each row that answers a send with a number, whose reading is the update's stamp. The lines
/// of what was delivered that bear a row's number are the row's passes and early updates, one for each and in the row's order, each
/// line is of a row, and all of them, the oldest first, are what the rows show one after the other. A running process that has
/// promised has its promise in the list, and each promise that a datagram tells stands there as its sender's. A send's group is the
/// one at the send; its row tells the group after the step, which may be another. Rows are those of any machine, however looks show
/// what it has.
pub fn history_is_seen<A: Machine>()
    ensures made_lines { (shown : A → List (ℕ × ℕ)) (team : Team) (past : List Step) → IsSound team →
        Admissible team past →
        Each (rows_of (meaning_of A.empty A.after shown) team past) (λ i r. r.made ≢ None →
        (k : Make) × In k (history team past).makes × IsMadeLineOf r k) }
    ensures makes { (shown : A → List (ℕ × ℕ)) (team : Team) (past : List Step) (k : Make) → IsSound team →
        Admissible team past → In k (history team past).makes →
        Exists (rows_of (meaning_of A.empty A.after shown) team past) (λ i r. IsMadeLineOf r k) }
    ensures sent_lines { (shown : A → List (ℕ × ℕ)) (team : Team) (past : List Step) → IsSound team →
        Admissible team past →
        Each (rows_of (meaning_of A.empty A.after shown) team past) (λ i r. (seq : ℕ) → r.answer ≡ RowAnswer.Sent seq →
        (z : SentUpdate) × In z (history team past).sends × IsSentLineOf r z) }
    ensures sends { (shown : A → List (ℕ × ℕ)) (team : Team) (past : List Step) (z : SentUpdate) → IsSound team →
        Admissible team past → In z (history team past).sends →
        Exists (rows_of (meaning_of A.empty A.after shown) team past) (λ i r. IsSentLineOf r z) }
    ensures flags { (shown : A → List (ℕ × ℕ)) (team : Team) (past : List Step) → IsSound team →
        Admissible team past →
        Each (rows_of (meaning_of A.empty A.after shown) team past) (λ i r. r.up ≡ true →
        (k : Up) × In k (history team past).ups × IsFlagOf r k) }
    ensures ups { (shown : A → List (ℕ × ℕ)) (team : Team) (past : List Step) (k : Up) → IsSound team →
        Admissible team past → In k (history team past).ups →
        Exists (rows_of (meaning_of A.empty A.after shown) team past) (λ i r. IsFlagOf r k) }
    ensures row_lines { (shown : A → List (ℕ × ℕ)) (team : Team) (past : List Step) → IsSound team →
        Admissible team past →
        Each (rows_of (meaning_of A.empty A.after shown) team past) (λ i r.
        AreLinesOf r (lines_of r.step (history team past).lines)) }
    ensures lines { (shown : A → List (ℕ × ℕ)) (team : Team) (past : List Step) (k : Line) → IsSound team →
        Admissible team past → In k (history team past).lines →
        Exists (rows_of (meaning_of A.empty A.after shown) team past) (λ i r. IsLineOf r k) }
    ensures in_order { (shown : A → List (ℕ × ℕ)) (team : Team) (past : List Step) → IsSound team →
        Admissible team past →
        map shown_of (reverse (history team past).lines)
        ≡ flat_map shown_in (rows_of (meaning_of A.empty A.after shown) team past) }
    ensures promised { (team : Team) (past : List Step) (who : ℕ) → IsSound team →
        Admissible team past →
        IfSome ((world team past).process_of who) (λ (p : Process). 0 < p.vote.promised →
        (k : Promised) × In k (history team past).promises × IsKeptPromise past who p k) }
    ensures told { (team : Team) (past : List Step) → IsSound team →
        Admissible team past →
        AllByRecursion (λ (k : Dispatch). TellsGiven (history team past).promises k.datagram.head.from k.datagram.body)
        (world team past).sent }
{}
