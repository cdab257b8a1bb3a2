//! What a process keeps, in one small type for each concern.

ghost use Rattle.std.specs.Prelude.{◌≡◌, ◌<◌, ◌≤◌, ◌^◌, IfSome};
ghost use Rattle.std.proofs.Props.{props};
ghost use Rattle.tw_types.specs.Team.{IsSound};

use crate::beat::Beat;
use crate::timing::Timing;
use oal::Oal;
use std::alloc::Global;
use tw_num::WantOfMemory;
use tw_types::{Ballot, Decision, Kind, Member, Mode, Report, Team};
use update_store::Store;

/// Who a process is.
#[derive(Clone, Copy)]
pub struct Identity {
    /// Its number in the team.
    pub who: u8,
    pub mode: Mode,
    /// The reading of its hardware clock at the beginning of this life, in ticks.
    pub incarnation: u64,
    /// The reading of its hardware clock at its start, in ticks.
    pub began: u64,
}

/// What a process promised and supported last.
#[derive(Clone, Copy)]
pub struct Vote {
    /// The number of the group that it promised, 0 at first, below 2^60.
    pub promised: u64,
    /// Its reading of team time when it last made a decision, in microseconds, below 2^60.
    pub support: Option<u64>,
}

/// What a process believes of its group.
#[derive(Drop)]
pub enum Belief {
    /// It has the list of updates, whole, and took this decision last.
    Informed(Option<Decision>),
    /// It lost its memory, and follows this decision.
    Blank(Option<Decision>),
}

impl Belief {
    ghost use Rattle.std.specs.Prelude.{◌≡◌, option_copied};
    ghost use Rattle.tw_types.specs.Beliefs.{is_informed, last_of, view_decision};
    ghost use Rattle.node_core.specs.StandsFor.{belief_seen};

    /// Whether the process has the list of updates.
    pub fn is_informed(&self) -> bool
        ensures { result ≡ is_informed (belief_seen self.now) }
    {
        matches!(self, Belief::Informed(_))
    }

    /// The last decision of an informed process.
    pub fn last(&self) -> Option<&Decision>
        ensures { option_copied result ≡ last_of (belief_seen self.now) }
    {
        match self {
            Belief::Informed(last) => last.as_ref(),
            Belief::Blank(_) => None,
        }
    }

    /// A copy of the last decision of an informed process.
    pub fn last_copy(&self) -> Option<Decision>
        ensures { result ≡ last_of (belief_seen self.now) }
    {
        self.last().map(Decision::copy)
    }

    /// The decision that the process took or follows.
    pub fn view(&self) -> Option<&Decision>
        ensures { option_copied result ≡ view_decision (belief_seen self.now) }
    {
        match self {
            Belief::Informed(view) | Belief::Blank(view) => view.as_ref(),
        }
    }
}

/// What a held decision is for.
#[derive(Clone, Copy, PartialEq, Eq)]
pub enum Purpose {
    /// It is to be taken.
    ToTake,
    /// A group is to be made from it.
    ToGroup,
}

/// For what a decision is held.
#[derive(Clone, Copy)]
pub struct Hold {
    pub purpose: Purpose,
    /// The number of the group that the process had promised when it was held.
    pub promised: u64,
}

/// All that a process keeps.
#[derive(Drop)]
pub struct State {
    pub team: Team,
    pub identity: Identity,
    pub timing: Timing,
    pub beat: Beat,
    pub vote: Vote,
    /// The ballot that it holds, where it holds an election.
    pub ballot: Option<Ballot>,
    pub belief: Belief,
    /// The list of updates.
    pub oal: Oal,
    /// The updates that wait, and a decision that is held since payloads of it are missing.
    pub store: Store,
    /// For what a decision is held, where one is.
    pub hold: Option<Hold>,
    /// The number of the next update that it sends, unless its seat awaits a greater one.
    pub next_seq: u32,
    ghost sound: { IsSound team } by { Prim.hlevel props },
    ghost who: { identity.who < team.n },
    ghost incarnation: { identity.incarnation < 2 ^ 60 },
}

impl State {
    ghost use Rattle.std.specs.Prelude.{◌≡◌, ◌<◌, ◌^◌, IfOk};
    ghost use Rattle.tw_types.specs.Ranges.{ReportFits};
    ghost use Rattle.tw_types.specs.Beliefs.{view_decision};
    ghost use Rattle.tw_types.specs.Decisions.{or_none};
    ghost use Rattle.tw_types.specs.Reports.{kind_of};
    ghost use Rattle.tw_types.specs.Promises.{is_quarantined};
    ghost use Rattle.tw_types.specs.Process.{Process, started};
    ghost use Rattle.tw_types.specs.Team.{IsSound};
    ghost use Rattle.tw_machine.specs.Standing.{member_of, report_by};
    ghost use Rattle.node_core.specs.InRange.{IsInRange};
    ghost use Rattle.node_core.specs.StandsFor.{StandsFor, identity_seen, belief_seen};

    /// The process `who` of a sound team, which starts at its reading `h`. Where memory is refused nothing is kept.
    pub fn new(
        alloc: Global,
        team: Team,
        who: u8,
        mode: Mode,
        h: u64,
    ) -> Result<State, WantOfMemory>
        requires sound { IsSound team }
        requires who { who < team.n }
        requires reading { h < 2 ^ 60 }
        ensures stands { IfOk result (λ s. StandsFor s (started who mode h)) }
        ensures fits { IfOk result IsInRange }
        ensures team { IfOk result (λ s. s.team ≡ team) }
    {
        let oal = Oal::new(alloc)?;
        let store = Store::new(alloc, team.n)?;
        Ok(State {
            team,
            identity: Identity {
                who,
                mode,
                incarnation: h,
                began: h,
            },
            timing: Timing::new(&team),
            beat: Beat { last: None },
            vote: Vote {
                promised: 0,
                support: None,
            },
            ballot: None,
            belief: match mode {
                Mode::First => Belief::Informed(None),
                Mode::Again => Belief::Blank(None),
            },
            oal,
            store,
            hold: None,
            next_seq: 1,
        })
    }

    /// The process in its present life.
    pub fn member(&self) -> Member
        ensures { result ≡ member_of (identity_seen self.now.identity) }
    {
        Member {
            who: self.identity.who,
            incarnation: self.identity.incarnation,
        }
    }

    /// Whether the process was started again, and so short a time ago that it promises nothing.
    pub fn is_quarantined(&self, h: u64) -> bool
        ensures { result ≡ is_quarantined self.now.team (identity_seen self.now.identity) h }
    {
        match self.identity.mode {
            Mode::First => false,
            Mode::Again => h.saturating_sub(self.identity.began) < self.team.quarantine,
        }
    }

    /// What the process reports of itself at its reading `t` of team time.
    pub fn report(&self, t: u64) -> Report
        requires fits { IsInRange self.now }
        requires reading { t < 2 ^ 60 }
        ensures exact { (p : Process) → StandsFor self.now p → result ≡ report_by p t }
        ensures fits { ReportFits self.now.team.n result }
        ensures member { result.member ≡ member_of (identity_seen self.now.identity) }
        ensures kind { result.kind ≡ kind_of (belief_seen self.now.belief) }
        ensures group { result.group ≡ (or_none (view_decision (belief_seen self.now.belief))).group }
        ensures turn { result.turn ≡ (or_none (view_decision (belief_seen self.now.belief))).turn }
        ensures length { result.length ≡ self.now.oal.length }
    {
        let (group, turn) = self
            .belief
            .view()
            .map_or((0, 0), |view| (view.group, view.turn));
        let kind = if self.belief.is_informed() {
            Kind::Informed
        } else {
            Kind::Ready
        };
        Report {
            member: self.member(),
            kind,
            group,
            turn,
            length: self.oal.length(),
            support: self.vote.support,
            reading: t,
        }
    }
}
