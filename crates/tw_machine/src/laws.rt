//! Laws of every admissible schedule. Each is the contract of a function that does nothing.

ghost use Rattle.std.specs.Prelude.{◌≡◌, ◌<◌, ◌≤◌, ◌^◌, ◌+◌, ◌↔◌, ◌⊎◌, ℕ, true, false, Some, Ok, List, [], ◌∷◌, ◌++◌, map, length, None};
ghost use Rattle.std.specs.List.{AllByRecursion};
ghost use Rattle.tw_machine.specs.Types.{Team, Step, Entry, Decision, Head, Why, Body, Pass, Order, Atom, ProposeFault, RowAnswer, Kept, Want, Reason};
ghost use Rattle.tw_types.specs.Team.{IsSound};
ghost use Rattle.tw_machine.specs.Grammar.{IsTeamLine, IsStepLine};
ghost use Rattle.tw_types.specs.Row.{Row};
ghost use Rattle.tw_machine.specs.RowText.{row_text, text_of};
ghost use Rattle.tw_machine.specs.RowLimits.{RowFits};
ghost use Rattle.tw_num.specs.declared.moment.Moment.{Moment};
ghost use Rattle.tw_types.specs.Votes.{Promise};
ghost use Rattle.tw_types.specs.Ballots.{wants};
ghost use Rattle.tw_types.specs.Refusals.{first_refusal};
ghost use Rattle.tw_types.specs.Waiting.{payloads_of, is_hole};
ghost use Rattle.tw_types.specs.Logs.{list_tests, first_missing, log_at, log_after, passed_one, marked_at};
ghost use Rattle.tw_types.specs.Beliefs.{Log, log_length};
ghost use Rattle.tw_types.specs.Deliveries.{deliveries};
ghost use Rattle.tw_machine.specs.Applied.{payloads_in, payloads_applied};
ghost use Rattle.tw_machine.specs.Delivering.{deliver};
ghost use Rattle.tw_machine.specs.Event.{Event};
ghost use Rattle.tw_machine.specs.Run.{Run};
ghost use Rattle.tw_machine.specs.Step.{step};
ghost use Rattle.tw_types.specs.Process.{Process};
ghost use Rattle.tw_machine.specs.Standing.{member_of, last_decision};
ghost use Rattle.tw_machine.specs.Control.{rate_of, timely_reading};
ghost use Rattle.tw_machine.specs.Untimely.{is_used_in_time, DropsUntimely};
ghost use Rattle.tw_machine.specs.LateOnes.{LateForACause};
ghost use Rattle.tw_types.specs.Appending.{EachIsNext, appended_list};
ghost use Rattle.tw_types.specs.Ranges.{Ascends};
ghost use Rattle.tw_machine.specs.Taking.{decision_tests};
ghost use Rattle.tw_machine.specs.Electing.{drop_ballot, answer_tests, holds_election, begin_election};
ghost use Rattle.tw_machine.specs.Deciding.{has_turn, take_turn};
ghost use Rattle.tw_machine.specs.Grouping.{make_group};
ghost use Rattle.tw_machine.specs.Beating.{is_repeated, repeat_decision};
ghost use Rattle.tw_machine.specs.Duties.{timed_duties};
ghost use Rattle.tw_machine.specs.Rules.{kind_rule};
ghost use Rattle.tw_types.specs.Flag.{is_up};
ghost use Rattle.tw_types.specs.Sends.{SendEnds, update_tests};
ghost use Rattle.tw_types.specs.Beliefs.{view_decision};
ghost use Rattle.tw_machine.specs.Updating.{take_update, answer_ask};
ghost use Rattle.tw_machine.specs.Proposing.{own_seat, own_seq, propose};

/// A line spells one team at most, and one step at most: this function does nothing, and its contract states that.
pub fn lines_spell_once()
    ensures team { (line : List ℕ) (a b : Team) → IsTeamLine line a → IsTeamLine line b → a ≡ b }
    ensures step { (n : ℕ) (line : List ℕ) (a b : Step) → n < 2 ^ 8 → IsStepLine n line a → IsStepLine n line b → a ≡ b }
{}

/// Different rows have different texts, and so have different lists of rows: this function does nothing, and its contract
/// states that.
pub fn rows_print_once()
    ensures row { (a b : Row) → RowFits a → RowFits b → row_text a ≡ row_text b → a ≡ b }
    ensures rows { (a b : List Row) → AllByRecursion RowFits a → AllByRecursion RowFits b → text_of a ≡ text_of b → a ≡ b }
{}

/// Duties that exclude each other in one step, of every process: who makes a next decision makes no group, so that a step makes
/// one decision at most; and what was made in a step isn't said again in it, nor a decision of a lower group than the promised
/// one, so who makes a decision repeats nothing, and neither does who holds an election and took no decision of a group above
/// its promise. So where these duties send more than one datagram, nothing is said again after them (`repeats`).
pub fn duties_exclude_each_other()
    ensures group { (team : Team) (now : Moment) (t : ℕ) (r : Run) → has_turn team t (drop_ballot team t r).process ≡ true →
        make_group team now t (take_turn team now t (drop_ballot team t r)) ≡ take_turn team now t (drop_ballot team t r) }
    ensures made { (team : Team) (now : Moment) (t : ℕ) (r : Run) (last : Decision) → IsSound team → now.reading ≡ Some t →
        last_decision r.process ≡ Some last → last.made ≡ t → repeat_decision team now r ≡ r }
    ensures elected { (team : Team) (now : Moment) (t : ℕ) (r : Run) (last : Decision) → holds_election team now t r.process ≡ true →
        last_decision r.process ≡ Some last → last.group ≤ r.process.vote.promised →
        repeat_decision team now (begin_election team now t r) ≡ begin_election team now t r }
    ensures repeats { (team : Team) (now : Moment) (t : ℕ) (r : Run) → IsSound team →
        ((last : Decision) → last_decision r.process ≡ Some last → last.group ≤ r.process.vote.promised) →
        (length (timed_duties team now t r).out.sends ≤ length r.out.sends + 1) ⊎
        ((last : Decision) → last_decision (timed_duties team now t r).process ≡ Some last → is_repeated team (timed_duties team now t r).process last (Some t) ≡ false) }
{}

/// A decision, an election or a promise that comes in time, to a process that has a reading, is done where no test of its kind
/// is against it; a decision only where also its list goes on that of the process and no payload is missing for that.
pub fn timely_datagrams_are_done()
    ensures decision { (team : Team) (now : Moment) (head : Head) (d : Decision) (r : Run) (t : ℕ) →
        timely_reading (rate_of team now head) now.reading ≡ Ok t → first_refusal (decision_tests r.process d) ≡ None →
        first_refusal (list_tests r.process.log d) ≡ None → first_missing r.process.log (payloads_of r.process.waiting) d ≡ None →
        (kind_rule team now head (Body.Decision d) r).dropped ≡ None }
    ensures election { (team : Team) (now : Moment) (head : Head) (number : ℕ) (why : Why) (r : Run) (t : ℕ) →
        timely_reading (rate_of team now head) now.reading ≡ Ok t →
        first_refusal (answer_tests team now head.from number why t r.process) ≡ None →
        (kind_rule team now head (Body.Election number why) r).dropped ≡ None }
    ensures promise { (team : Team) (now : Moment) (head : Head) (p : Promise) (r : Run) (t : ℕ) →
        timely_reading (rate_of team now head) now.reading ≡ Ok t → wants p r.process.ballot ≡ true →
        (kind_rule team now head (Body.Promise p.number p.report p.decision) r).dropped ≡ None }
{}

/// A decision, an election or a promise, to whatever process: it is dropped as unrated exactly where nothing bounds how long it was under
/// way, else as late exactly where that is too long, with the bound, else as unsynced exactly where the process has no reading; and then
/// its rule leaves all as it was.
pub fn untimely_datagrams_are_dropped()
    ensures exact { (team : Team) (now : Moment) (head : Head) (body : Body) (r : Run) → is_used_in_time body ≡ true →
        DropsUntimely (rate_of team now head) now.reading r (kind_rule team now head body r) }
{}

/// A timed update that a decision adds as late wasn't above the mark as adding began, or stands behind one of its own process that was
/// added with it: so none is late because that of another process with a greater stamp went before it. That is so of whatever each is
/// next behind those before it (`each`), and so of the list that a maker adds (`added`).
pub fn late_entries_have_their_cause()
    ensures each { (team : Team) (t : ℕ) (d : Decision) (pending : List Kept) (entries : List Entry) →
        EachIsNext team t d pending [] entries → LateForACause d.mark [] entries }
    ensures added { (team : Team) (t passed : ℕ) (d : Decision) (pending : List Kept) → Ascends d.seats.items →
        LateForACause d.mark [] (appended_list team t passed d pending) }
{}

/// A send is refused exactly where its cause is there, which is told first, and then leaves all as it was but for what the duties
/// do; and it gets its number exactly where there is no cause. Nothing else is asked.
pub fn sends_have_their_causes()
    ensures refused { (team : Team) (now : Moment) (order : Order) (atom : Atom) (payload : List ℕ) (r : Run) (why : ProposeFault) →
        ((propose team now order atom payload r).answer ≡ RowAnswer.Refused why) ↔
        SendEnds (length payload) (is_up team r.process.vote r.process.belief now.reading) (own_seat r.process) r.process.next_seq (Some why) }
    ensures unchanged { (team : Team) (now : Moment) (order : Order) (atom : Atom) (payload : List ℕ) (r : Run) (why : ProposeFault) →
        (propose team now order atom payload r).answer ≡ RowAnswer.Refused why → (propose team now order atom payload r).run ≡ r }
    ensures sent { (team : Team) (now : Moment) (order : Order) (atom : Atom) (payload : List ℕ) (r : Run) →
        ((propose team now order atom payload r).answer ≡ RowAnswer.Sent (own_seq r.process)) ↔
        SendEnds (length payload) (is_up team r.process.vote r.process.belief now.reading) (own_seat r.process) r.process.next_seq None }
{}

/// An update that comes is kept where it fills a hole of a held decision; else the first test that is against it is told, and it
/// is kept where none is. One that is dropped leaves all as it was, and so does a question that isn't answered.
pub fn updates_are_tested_in_order()
    ensures fills { (now : Moment) (k : Kept) (r : Run) → is_hole k.entry.id r.process.waiting.held ≡ true → (take_update now k r).dropped ≡ None }
    ensures first { (now : Moment) (k : Kept) (r : Run) → is_hole k.entry.id r.process.waiting.held ≡ false →
        (take_update now k r).dropped ≡ first_refusal (update_tests (member_of r.process.identity) (view_decision r.process.belief) r.process.waiting.pending k) }
    ensures unchanged { (now : Moment) (k : Kept) (r : Run) (reason : Reason) → (take_update now k r).dropped ≡ Some reason → (take_update now k r).run ≡ r }
    ensures unanswered { (now : Moment) (from : ℕ) (want : Want) (r : Run) (reason : Reason) →
        (answer_ask now from want r).dropped ≡ Some reason → (answer_ask now from want r).run ≡ r }
{}

/// What is applied follows the passes: the update at the cursor is applied behind the others as it is passed, where it is total or
/// timed and not late (`passed`); a decision's entries that are put behind the end (`grown`) and a mark of an early delivery
/// (`marked`) apply nothing. So a process that delivers applies of its passes those that are total or timed and not late, in their
/// order, and no others (`delivered`), and so does a step, whatever its event, of a process that passed no more than its list has
/// (`stepped`).
pub fn tables_follow_passes()
    ensures passed { (log : Log) (k : Kept) → log_at log.passed log ≡ Some k →
        payloads_applied (passed_one log) ≡ payloads_applied log ++ payloads_in (k ∷ []) }
    ensures grown { (payloads : List Kept) (d : Decision) (log : Log) → log.passed ≤ log_length log →
        payloads_applied (log_after payloads d log) ≡ payloads_applied log }
    ensures marked { (position : ℕ) (log : Log) → payloads_applied (marked_at position log) ≡ payloads_applied log }
    ensures delivered { (team : Team) (t : ℕ) (r : Run) → payloads_applied (deliver team t r).process.log ≡
        payloads_applied r.process.log ++ payloads_in (map (λ (p : Pass). p.kept) (deliveries team (Some t) r.process).passes) }
    ensures stepped { (team : Team) (h : ℕ) (e : Event) (p : Process) → p.log.passed ≤ log_length p.log →
        payloads_applied (step team h e p).process.log ≡
        payloads_applied p.log ++ payloads_in (map (λ (q : Pass). q.kept) (step team h e p).out.passes) }
{}
