//! A process with its machine, and its steps.

ghost use Rattle.std.specs.Prelude.{◌≡◌, ◌<◌, ◌^◌};
ghost use Rattle.tw_types.specs.Team.{IsSound};
ghost use Rattle.tw_machine.specs.Step.{answer_by};

use crate::applying::apply_passes;
use crate::hearing::learn;
use crate::state::State;
use app_table::Machine;
use std::alloc::Global;
use std::marker::Model;
use tw_num::WantOfMemory;
use tw_types::{Answer, Atom, Datagram, Mode, Order, Outputs, ProposeFault, Reason, Team, View};
use wire_body::blank;

/// What happens to a process.
#[derive(Clone, Copy)]
pub enum Event<'a> {
    /// Time passed.
    Tick,
    /// Bytes came from another process, or from a stranger.
    Packet(&'a [u8]),
    /// Team time is known to lie from `lo` to `hi`, in microseconds.
    Reference { lo: u64, hi: u64 },
}

/// A process of a team, with the machine that it applies updates to. It takes no memory once it is made. Contracts see it as what
/// it keeps, which is always in range, with its machine's content, and nothing of its inbox.
#[derive(Drop)]
pub struct Core<A> {
    state: State,
    /// Where a packet is read. What an earlier one left there says nothing.
    inbox: Datagram,
    machine: A,
}

impl<A> Model for Core<A> {
    ghost use Rattle.node_core.specs.InRange.{IsInRange};
    ghost use Rattle.node_core.specs.WithMachine.{WithMachine};

    ghost Value = { WithMachine A };

    ghost view = { λ c. record { state = c.state; machine = c.machine } };

    ghost invariant = { λ c. IsInRange c.state };
}

impl<A: Machine> Core<A> {
    ghost use Rattle.std.specs.Prelude.{◌≡◌, ◌<◌, ◌≤◌, ◌+◌, ◌^◌, ℕ, List, length, true, Some, None, IfOk, option_copied};
    ghost use Rattle.std.specs.List.{AllByRecursion};
    ghost use Rattle.tw_types.specs.declared.message.Seat.{Seat as SeatSeen};
    ghost use Rattle.tw_types.specs.Flag.{is_up};
    ghost use Rattle.tw_types.specs.Sends.{first_send_refusal, seq_to_send};
    ghost use Rattle.tw_types.specs.Process.{Process, started};
    ghost use Rattle.tw_num.specs.Clock.{IsNotBefore, moment_at, reading_at};
    ghost use Rattle.tw_machine.specs.Applied.{meaning_of, table_of};
    ghost use Rattle.tw_machine.specs.Event.{Send};
    ghost use Rattle.tw_machine.specs.Proposing.{own_seat, refusals};
    ghost use Rattle.tw_machine.specs.Step.{row_answer, step, looked, view_of};
    ghost use Rattle.node_core.specs.Outcomes.{send_answer, send_refusal};
    ghost use Rattle.node_core.specs.Events.{event_seen, IsGivable};
    ghost use Rattle.node_core.specs.Sends.{IsSendable};
    ghost use Rattle.node_core.specs.WithMachine.{StandsWith};

    /// The process `who` of a sound team, which starts at its reading `h`, with a machine to which nothing was applied. Where memory
    /// is refused nothing is kept, and the machine is dropped.
    pub fn new(
        alloc: Global,
        team: Team,
        who: u8,
        mode: Mode,
        h: u64,
        machine: A,
    ) -> Result<Core<A>, WantOfMemory>
        requires sound { IsSound team }
        requires who { who < team.n }
        requires reading { h < 2 ^ 60 }
        requires empty { machine ≡ A.empty }
        ensures stands { IfOk result (λ core. StandsWith A.empty A.after core (started who mode h)) }
        ensures team { IfOk result (λ core. core.state.team ≡ team) }
    {
        Ok(Core {
            state: State::new(alloc, team, who, mode, h)?,
            inbox: blank(),
            machine,
        })
    }

    /// Takes an event at the reading `h`, not below the last one, and puts what it gives into `out`, which is cleared first.
    pub fn step(&mut self, event: Event<'_>, h: u64, out: &mut Outputs) -> Answer
        requires reading { h < 2 ^ 60 }
        requires givable { IsGivable event }
        ensures stands { (p : Process) → StandsWith A.empty A.after self.old p → IsNotBefore h p.timing.clock →
            StandsWith A.empty A.after self.new (step self.old.state.team h (event_seen self.old.state.team event.entry) p).process }
        ensures answer { (p : Process) → StandsWith A.empty A.after self.old p → IsNotBefore h p.timing.clock →
            row_answer result ≡ (step self.old.state.team h (event_seen self.old.state.team event.entry) p).answer }
        ensures out { (p : Process) → StandsWith A.empty A.after self.old p → IsNotBefore h p.timing.clock →
            out.new ≡ (step self.old.state.team h (event_seen self.old.state.team event.entry) p).out }
        ensures fits { AllByRecursion (IsSendable self.old.state.team.n) out.new.sends }
        ensures team { self.new.state.team ≡ self.old.state.team }
    {
        out.clear();
        // no more is passed than the list has
        let length = self.state.oal.length();
        prove!(self.state.oal.passed() <= length);
        let answer = self.state.step(&mut self.inbox, event, h, out);
        apply_passes(out.passes.as_slice(), &mut self.machine);
        answer
    }

    /// Sends an update at the reading `h`, not below the last one, and puts what that gives into `out`, which is cleared first. Answers
    /// the update's number, or why it isn't sent: the first of `TooLong`, `NotUpToDate`, `Full` and `Spent` that is so. Then nothing
    /// changes but by the clock and the duties, which run all the same.
    ///
    /// `TooLong` comes where the payload has more than 128 bytes; `NotUpToDate` where the process isn't up at its reading, or this life
    /// of it has no seat in its last decision; `Full` where the number would be 8 or more above the one that its seat awaits; `Spent`
    /// where it would be 4,294,967,295.
    pub fn propose(
        &mut self,
        h: u64,
        order: Order,
        atom: Atom,
        payload: &[u8],
        out: &mut Outputs,
    ) -> Result<u32, ProposeFault>
        requires reading { h < 2 ^ 60 }
        ensures stands { (p : Process) → StandsWith A.empty A.after self.old p → IsNotBefore h p.timing.clock →
            StandsWith A.empty A.after self.new (step self.old.state.team h (Send order atom payload.now) p).process }
        ensures answer { (p : Process) → StandsWith A.empty A.after self.old p → IsNotBefore h p.timing.clock →
            send_answer result ≡ (step self.old.state.team h (Send order atom payload.now) p).answer }
        ensures out { (p : Process) → StandsWith A.empty A.after self.old p → IsNotBefore h p.timing.clock →
            out.new ≡ (step self.old.state.team h (Send order atom payload.now) p).out }
        // the first refusal that is there, and else a number
        ensures refused { (p : Process) → StandsWith A.empty A.after self.old p → IsNotBefore h p.timing.clock →
            send_refusal result ≡ first_send_refusal (refusals self.old.state.team (moment_at self.old.state.team.ppm self.old.state.team.eps h p.timing.clock) (length payload.now) p) }
        // a process that is up sends what is short enough, where its seat awaits it, and a number is left
        ensures complete { (p : Process) (seat : SeatSeen) → StandsWith A.empty A.after self.old p → IsNotBefore h p.timing.clock →
            length payload.now ≤ 128 → is_up self.old.state.team p.vote p.belief (reading_at self.old.state.team.ppm self.old.state.team.eps h p.timing.clock) ≡ true →
            own_seat p ≡ Some seat → seq_to_send (Some seat) p.next_seq < seat.next + 8 → seq_to_send (Some seat) p.next_seq < 4294967295 →
            send_refusal result ≡ None }
        ensures fits { AllByRecursion (IsSendable self.old.state.team.n) out.new.sends }
        ensures team { self.new.state.team ≡ self.old.state.team }
    {
        out.clear();
        // no more is passed than the list has
        let length = self.state.oal.length();
        prove!(self.state.oal.passed() <= length);
        let answer = self.state.propose(order, atom, payload, h, out);
        apply_passes(out.passes.as_slice(), &mut self.machine);
        answer
    }

    /// What the process says of itself at the reading `h`, not below the last one.
    pub fn look(&mut self, h: u64) -> View
        requires { h < 2 ^ 60 }
        ensures stands { (p : Process) → StandsWith A.empty A.after self.old p → IsNotBefore h p.timing.clock → StandsWith A.empty A.after self.new (looked self.old.state.team h p) }
        ensures view { (p : Process) → StandsWith A.empty A.after self.old p → IsNotBefore h p.timing.clock → result ≡ view_of self.old.state.team h p }
        ensures team { self.new.state.team ≡ self.old.state.team }
    {
        self.state.look(h)
    }

    /// The machine, which has what was applied of the list. None exactly where the process is blank, and lost the list.
    pub fn table(&self) -> Option<&A>
        ensures { (shown : A → List (ℕ × ℕ)) (p : Process) → StandsWith A.empty A.after self.now p →
            option_copied result ≡ table_of (meaning_of A.empty A.after shown) p }
    {
        self.state.belief.is_informed().then_some(&self.machine)
    }
}

impl State {
    ghost use Rattle.std.specs.Prelude.{◌≡◌, ◌<◌, ◌≤◌, ◌+◌, ◌^◌, length, true, Some, None};
    ghost use Rattle.tw_types.specs.declared.message.Seat.{Seat as SeatSeen};
    ghost use Rattle.tw_types.specs.Flag.{is_up};
    ghost use Rattle.std.specs.List.{AllByRecursion};
    ghost use Rattle.tw_types.specs.Sends.{first_send_refusal, seq_to_send};
    ghost use Rattle.tw_types.specs.Outputs.{nothing};
    ghost use Rattle.tw_types.specs.Process.{Process};
    ghost use Rattle.tw_num.specs.Clock.{IsNotBefore, moment_at, reading_at};
    ghost use Rattle.tw_machine.specs.Event.{Send};
    ghost use Rattle.tw_machine.specs.Proposing.{own_seat, refusals};
    ghost use Rattle.tw_machine.specs.Step.{row_answer, step, looked, view_of};
    ghost use Rattle.node_core.specs.Outcomes.{send_answer, send_refusal};
    ghost use Rattle.node_core.specs.Events.{event_seen, IsGivable};
    ghost use Rattle.node_core.specs.InRange.{IsInRange};
    ghost use Rattle.node_core.specs.Sends.{IsSendable};
    ghost use Rattle.node_core.specs.StandsFor.{StandsFor};

    /// Takes an event at the reading `h`, and puts what it gives into the empty `out`. Its packet is read into the inbox.
    fn step(&mut self, inbox: &mut Datagram, event: Event<'_>, h: u64, out: &mut Outputs) -> Answer
        requires fits { IsInRange self.old }
        requires reading { h < 2 ^ 60 }
        requires givable { IsGivable event }
        requires empty { out.old ≡ nothing }
        ensures stands { (p : Process) → StandsFor self.old p → IsNotBefore h p.timing.clock →
            StandsFor self.new (step self.old.team h (event_seen self.old.team event.entry) p).process }
        ensures answer { (p : Process) → StandsFor self.old p → IsNotBefore h p.timing.clock →
            row_answer result ≡ (step self.old.team h (event_seen self.old.team event.entry) p).answer }
        ensures out { (p : Process) → StandsFor self.old p → IsNotBefore h p.timing.clock →
            out.new ≡ (step self.old.team h (event_seen self.old.team event.entry) p).out }
        ensures gives { AllByRecursion (IsSendable self.old.team.n) out.new.sends }
        ensures fits { IsInRange self.new }
        ensures team { self.new.team ≡ self.old.team }
    {
        let packet = learn(
            &self.team,
            self.identity.who,
            &mut self.timing,
            inbox,
            event,
            h,
        );
        let now = self.timing.moment(h);
        let dropped = self.rule(&now, packet, inbox, out);
        if event.has_duties() {
            self.duties(&now, out);
        }
        answer(dropped)
    }

    /// Sends an update at the reading `h`, and puts what that gives into the empty `out`. The duties run after it, also where it is
    /// refused.
    fn propose(
        &mut self,
        order: Order,
        atom: Atom,
        payload: &[u8],
        h: u64,
        out: &mut Outputs,
    ) -> Result<u32, ProposeFault>
        requires fits { IsInRange self.old }
        requires reading { h < 2 ^ 60 }
        requires empty { out.old ≡ nothing }
        ensures stands { (p : Process) → StandsFor self.old p → IsNotBefore h p.timing.clock →
            StandsFor self.new (step self.old.team h (Send order atom payload.now) p).process }
        ensures answer { (p : Process) → StandsFor self.old p → IsNotBefore h p.timing.clock →
            send_answer result ≡ (step self.old.team h (Send order atom payload.now) p).answer }
        ensures out { (p : Process) → StandsFor self.old p → IsNotBefore h p.timing.clock →
            out.new ≡ (step self.old.team h (Send order atom payload.now) p).out }
        ensures refused { (p : Process) → StandsFor self.old p → IsNotBefore h p.timing.clock →
            send_refusal result ≡ first_send_refusal (refusals self.old.team (moment_at self.old.team.ppm self.old.team.eps h p.timing.clock) (length payload.now) p) }
        // a process that is up sends what is short enough, where its seat awaits it, and a number is left
        ensures complete { (p : Process) (seat : SeatSeen) → StandsFor self.old p → IsNotBefore h p.timing.clock →
            length payload.now ≤ 128 → is_up self.old.team p.vote p.belief (reading_at self.old.team.ppm self.old.team.eps h p.timing.clock) ≡ true →
            own_seat p ≡ Some seat → seq_to_send (Some seat) p.next_seq < seat.next + 8 → seq_to_send (Some seat) p.next_seq < 4294967295 →
            send_refusal result ≡ None }
        ensures gives { AllByRecursion (IsSendable self.old.team.n) out.new.sends }
        ensures fits { IsInRange self.new }
        ensures team { self.new.team ≡ self.old.team }
    {
        let now = self.timing.moment(h);
        let answer = self.send_update(&now, order, atom, payload, out);
        self.duties(&now, out);
        answer
    }

    /// What the process says of itself at the reading `h`.
    fn look(&mut self, h: u64) -> View
        requires fits { IsInRange self.old }
        requires reading { h < 2 ^ 60 }
        ensures stands { (p : Process) → StandsFor self.old p → IsNotBefore h p.timing.clock → StandsFor self.new (looked self.old.team h p) }
        ensures view { (p : Process) → StandsFor self.old p → IsNotBefore h p.timing.clock → result ≡ view_of self.old.team h p }
        ensures fits { IsInRange self.new }
        ensures team { self.new.team ≡ self.old.team }
    {
        let reading = self.timing.read(h);
        let (group, turn) = self
            .belief
            .last()
            .map_or((0, 0), |last| (last.group, last.turn));
        View {
            incarnation: self.identity.incarnation,
            reading,
            up: self.is_up(reading),
            group,
            turn,
            length: self.oal.length(),
            passed: self.oal.passed(),
        }
    }
}

/// The answer to an event that is dropped for this reason, if it is dropped.
fn answer(dropped: Option<Reason>) -> Answer
    ensures { result ≡ answer_by dropped }
{
    match dropped {
        None => Answer::Done,
        Some(reason) => Answer::Dropped(reason),
    }
}

impl Event<'_> {
    ghost use Rattle.std.specs.Prelude.{◌≡◌};
    ghost use Rattle.tw_types.specs.declared.team.Team.{Team};
    ghost use Rattle.tw_machine.specs.Step.{has_duties};
    ghost use Rattle.node_core.specs.Events.{event_seen};

    /// Whether the duties run after the event.
    fn has_duties(&self) -> bool
        ensures { (team : Team) → result ≡ has_duties (event_seen team self.now) }
    {
        !matches!(self, Event::Reference { .. })
    }
}
