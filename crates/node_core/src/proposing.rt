//! Updates that a process sends.

ghost use Rattle.std.specs.Prelude.{◌≡◌, find, option_copied};
ghost use Rattle.tw_types.specs.Decisions.{is_seat_of};
ghost use Rattle.tw_types.specs.Sends.{seq_to_send, send_tests, first_send_refusal};

use crate::state::State;
use arrayvec::ArrayVec;
use tw_num::Moment;
use tw_types::{
    Atom, Body, Decision, Entry, Kept, Member, Order, Outputs, ProposeFault, Seat, UpdateId,
};
use update_store::Put;

/// The bytes that an update may have.
const PAYLOAD_ROOM: usize = 128;

/// So many updates of a process may wait for their place.
const PENDING_ROOM: u64 = 8;

/// The greatest number of an update.
const LAST_SEQ: u32 = 4_294_967_294;

/// The number that an update gets: the sender's next one, or the one that its seat awaits, where that is greater.
fn seq_to_send(seat: Option<Seat>, next: u32) -> u32
    ensures { result ≡ seq_to_send seat next }
{
    next.max(seat.map_or(1, |seat| seat.next))
}

/// Why an update of so many bytes isn't sent: by whether its sender is up, its seat, if it has one, and its next number.
fn send_fault(size: usize, up: bool, seat: Option<Seat>, next: u32) -> Option<ProposeFault>
    ensures { result ≡ first_send_refusal (send_tests size up seat next) }
{
    if size > PAYLOAD_ROOM {
        return Some(ProposeFault::TooLong);
    }
    let Some(own) = seat else {
        return Some(ProposeFault::NotUpToDate);
    };
    if !up {
        return Some(ProposeFault::NotUpToDate);
    }
    let seq = seq_to_send(seat, next);
    if u64::from(own.next) + PENDING_ROOM <= u64::from(seq) {
        Some(ProposeFault::Full)
    } else if seq > LAST_SEQ {
        Some(ProposeFault::Spent)
    } else {
        None
    }
}

/// A member's seat in a decision.
fn seat_of(member: Member, d: &Decision) -> Option<&Seat>
    ensures { option_copied result ≡ find (is_seat_of member) d.now.seats.items }
{
    d.seats.iter().find(|seat| seat.member == member)
}

impl State {
    ghost use Rattle.std.specs.Prelude.{◌≡◌, ◌<◌, ◌≤◌, ◌+◌, ◌^◌, length, None, IfSome};
    ghost use Rattle.tw_types.specs.declared.team.Team.{Team as TeamSeen};
    ghost use Rattle.tw_types.specs.Beliefs.{view_decision};
    ghost use Rattle.tw_types.specs.Flag.{is_up};
    ghost use Rattle.tw_types.specs.Process.{Process};
    ghost use Rattle.tw_types.specs.Ranges.{SeatFits, UpdateFits};
    ghost use Rattle.tw_types.specs.Sends.{update_of, send_tests, first_send_refusal};
    ghost use Rattle.tw_types.specs.Waiting.{putting};
    ghost use Rattle.tw_machine.specs.Run.{Run};
    ghost use Rattle.tw_machine.specs.Standing.{member_of};
    ghost use Rattle.tw_machine.specs.Proposing.{own_seat, propose};
    ghost use Rattle.tw_machine.specs.Updating.{update_put};
    ghost use Rattle.node_core.specs.InRange.{IsInRange};
    ghost use Rattle.node_core.specs.Moments.{MomentFits};
    ghost use Rattle.node_core.specs.Outcomes.{send_answer};
    ghost use Rattle.node_core.specs.Sends.{GivesMore};
    ghost use Rattle.node_core.specs.StandsFor.{StandsFor, RunStandsFor, identity_seen, vote_seen, belief_seen};

    /// The process's own seat in its last decision, if it has one there.
    fn own_seat(&self) -> Option<Seat>
        requires fits { IsInRange self.now }
        ensures exact { (p : Process) → StandsFor self.now p → result ≡ own_seat p }
        ensures fits { IfSome result (SeatFits self.now.team.n) }
    {
        match self.belief.last() {
            None => None,
            Some(last) => seat_of(self.member(), last).copied(),
        }
    }

    /// Why the process doesn't send an update of so many bytes now.
    fn refuse_send(&self, now: &Moment, size: usize, seat: Option<Seat>) -> Option<ProposeFault>
        ensures { result ≡ first_send_refusal (send_tests size (is_up self.now.team (vote_seen self.now.vote) (belief_seen self.now.belief) now.now.reading) seat self.now.next_seq) }
    {
        send_fault(size, self.is_up(now.reading), seat, self.next_seq)
    }

    /// The update of this number that the process sends at its reading `t` of team time.
    fn own_update(&self, seq: u32, t: u64, order: Order, atom: Atom, payload: &[u8]) -> Kept
        requires few { length payload.now ≤ 128 }
        ensures exact { result ≡ update_of (member_of (identity_seen self.now.identity)) seq t order atom payload.now }
    {
        let mut bytes = ArrayVec::new();
        let _ = bytes.try_extend_from_slice(payload);
        let id = UpdateId {
            who: self.identity.who,
            incarnation: self.identity.incarnation,
            seq,
        };
        Kept {
            entry: Entry {
                id,
                order,
                atom,
                stamp: t,
                late: false,
            },
            early: false,
            payload: bytes,
        }
    }

    /// Keeps the process's own update, as one that came.
    fn keep_own(&mut self, now: &Moment, kept: &Kept, out: &mut Outputs)
        requires fits { IsInRange self.old }
        requires now { MomentFits now.now }
        requires update { UpdateFits self.old.team.n kept.now }
        requires room { length out.old.sends + 1 ≤ 64 }
        ensures stands { (team : TeamSeen) (r : Run) → RunStandsFor team self.old out.old r →
            RunStandsFor team self.new out.new (update_put now.now (putting (view_decision r.process.belief) kept.now r.process.waiting) kept.now r) }
        ensures gives { GivesMore self.old.team.n 1 out.old out.new }
        ensures fits { IsInRange self.new }
        ensures team { self.new.team ≡ self.old.team }
    {
        match self.put(kept) {
            Put::Filled => self.use_if_whole(now, out),
            Put::Stored | Put::Known | Put::Stranger | Put::OutOfRange => {}
        }
    }

    /// Sends an update to all other processes, members or not, and keeps it. Answers its number, or why it isn't sent: the first of
    /// the faults that is there. Then nothing changes.
    #[inline(never)]
    pub fn send_update(
        &mut self,
        now: &Moment,
        order: Order,
        atom: Atom,
        payload: &[u8],
        out: &mut Outputs,
    ) -> Result<u32, ProposeFault>
        requires fits { IsInRange self.old }
        requires now { MomentFits now.now }
        requires room { length out.old.sends + 15 ≤ 64 }
        ensures stands { (team : TeamSeen) (r : Run) → RunStandsFor team self.old out.old r →
            RunStandsFor team self.new out.new (propose team now.now order atom payload.now r).run }
        ensures answer { (team : TeamSeen) (r : Run) → RunStandsFor team self.old out.old r →
            send_answer result ≡ (propose team now.now order atom payload.now r).answer }
        ensures gives { GivesMore self.old.team.n 15 out.old out.new }
        ensures fits { IsInRange self.new }
        ensures team { self.new.team ≡ self.old.team }
    {
        let seat = self.own_seat();
        if let Some(fault) = self.refuse_send(now, payload.len(), seat) {
            return Err(fault);
        }
        let seq = seq_to_send(seat, self.next_seq);
        let kept = self.own_update(seq, now.reading.unwrap_or(0), order, atom, payload);
        self.next_seq = seq + 1;
        self.keep_own(now, &kept, out);
        self.send_to_others(now, &Body::Update(kept), out);
        Ok(seq)
    }
}
