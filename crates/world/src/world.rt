//! All processes of a team under a schedule.

ghost use Rattle.std.specs.Prelude.{◌≡◌, ◌<◌, ◌≤◌, ◌*◌, ◌^◌, true, vec_len};
ghost use Rattle.std.proofs.Props.{props};
ghost use Rattle.tw_types.specs.Team.{IsSound};
ghost use Rattle.tw_machine.specs.Rows.{line_by};
ghost use Rattle.world.specs.NodeConditions.{are_of};

use crate::node::Node;
use crate::refused::Refused;
use crate::sent::Sent;
use std::alloc::Global;
use tw_num::WantOfMemory;
use tw_types::{Outputs, Row, RowAnswer, RowLine, Step, Team, View};

/// All processes of a team after some steps of a schedule, at most 100,000, and what they sent.
#[derive(Drop)]
pub struct World {
    alloc: Global,
    team: Team,
    steps: u32,
    latest: u64,
    processes: Vec<Node>,
    sent: Sent,
    out: Outputs,
    ghost sound: { IsSound team } by { Prim.hlevel props },
    ghost line: { team.line < 2 ^ 32 },
    ghost each: { vec_len processes ≡ team.n },
    ghost one_team: { are_of team.n processes.items ≡ true },
    ghost few: { steps ≤ 100000 },
    ghost number: { vec_len sent.places ≤ 64 * steps },
}

/// The first line of the row of a step.
fn line(number: u32, who: u8, answer: RowAnswer, view: View) -> RowLine
    ensures { result ≡ line_by number who answer view }
{
    RowLine {
        step: number,
        who,
        incarnation: view.incarnation,
        reading: view.reading,
        up: view.up,
        group: view.group,
        turn: view.turn,
        length: view.length,
        passed: view.passed,
        answer,
    }
}

impl World {
    ghost use Rattle.std.specs.Prelude.{◌≡◌, ◌<◌, ◌≤◌, ◌+◌, ◌^◌, List, [], ◌∷◌, true, None, IfOk, IfErr, OnOk, OnErr};
    ghost use Rattle.tw_types.specs.Team.{IsSound};
    ghost use Rattle.tw_machine.specs.Types.{Team as TeamSeen, Step as StepSeen};
    ghost use Rattle.tw_machine.specs.Admissible.{cause_of};
    ghost use Rattle.tw_machine.specs.Grammar.{IsAct};
    ghost use Rattle.tw_machine.specs.World.{world};
    ghost use Rattle.tw_machine.specs.Rows.{row_of};
    ghost use Rattle.world.specs.Causes.{cause_told, cause_if};
    ghost use Rattle.world.specs.StandsFor.{StandsFor, IsSame};
    ghost use Rattle.world.specs.Tables.{entries_of};

    /// A sound team before the first step: no process runs, and nothing was sent.
    pub fn new(alloc: Global, team: Team) -> Result<World, WantOfMemory>
        requires sound { IsSound team }
        ensures stands { IfOk result (λ w. StandsFor team [] w) }
        ensures team { IfOk result (λ w. w.team ≡ team) }
        ensures steps { IfOk result (λ w. w.steps ≡ 0) }
    {
        let mut processes = Vec::new(alloc);
        for _who in 0..team.n {
            processes.push(Node {
                bounds: None,
                started: false,
                core: None,
            })?;
        }
        Ok(World {
            alloc,
            team,
            steps: 0,
            latest: 0,
            processes,
            sent: Sent::new(alloc),
            out: Outputs::new(alloc)?,
        })
    }

    /// The team.
    pub fn team(&self) -> &Team
        ensures { result.now ≡ self.now.team }
    {
        &self.team
    }

    /// How many steps were taken, at most 100,000.
    pub fn steps(&self) -> u32
        ensures { result ≡ self.now.steps }
    {
        self.steps
    }

    /// Why the step may not follow the steps before it, if it may not.
    fn refusal(&self, step: &Step) -> Option<Refused>
        requires who { step.now.who < self.now.team.n }
        ensures { (team : TeamSeen) (past : List StepSeen) → StandsFor team past self.now →
            cause_if result ≡ cause_of team (world team past).sent past step.now }
    {
        let received = self.sent.may_receive(step);
        let node = &self.processes[usize::from(step.who)];
        node.refusal(self.team.ppm, self.latest, received, step)
    }

    /// Takes a step that may follow, and makes `row` its row. An `Err` leaves all as it was.
    fn take(&mut self, step: &Step, row: &mut Row) -> Result<(), WantOfMemory>
        requires who { step.now.who < self.old.team.n }
        requires h { step.now.h < 2 ^ 60 }
        requires act { IsAct step.now.act }
        requires steps { self.old.steps < 100000 }
        ensures taken { OnOk result ((team : TeamSeen) (past : List StepSeen) → StandsFor team past self.old →
            cause_of team (world team past).sent past step.now ≡ None → StandsFor team (step.now ∷ past) self.new × (row.new ≡ row_of entries_of team past step.now)) }
        ensures steps { OnOk result (self.new.steps ≡ self.old.steps + 1) }
        ensures team { OnOk result (self.new.team ≡ self.old.team) }
        ensures same { OnErr result (IsSame self.new self.old) }
        ensures same_row { OnErr result (row.new ≡ row.old) }
    {
        self.sent.reserve()?;
        let node = &mut self.processes[usize::from(step.who)];
        node.note(self.alloc, &self.team, step)?;
        let (answer, view) = node.act(step, &self.sent, &mut self.out);
        let entries = node.shown(&step.act);
        let first = self.sent.count() as u32 + 1;
        self.sent.keep(&self.team, &self.out.sends);
        self.steps += 1;
        self.latest = step.t;
        row.fill(
            line(self.steps, step.who, answer, view),
            &mut self.out,
            first,
            entries,
        );
        Ok(())
    }

    /// Takes the next step, and makes `row` its row.
    ///
    /// A step that may not follow the steps before it is refused for the first cause of these, in this order: `Time`, `Drift`,
    /// `Start`, `NotRunning`, `NoDatagram`, `Reference`. One that may follow is refused for want of memory alone. Each refusal
    /// leaves all as it was.
    pub fn apply(&mut self, step: &Step, row: &mut Row) -> Result<(), Refused>
        requires who { step.now.who < self.old.team.n }
        requires h { step.now.h < 2 ^ 60 }
        requires act { IsAct step.now.act }
        requires steps { self.old.steps < 100000 }
        ensures taken { IfOk result (λ _. (team : TeamSeen) (past : List StepSeen) → StandsFor team past self.old →
            (cause_of team (world team past).sent past step.now ≡ None) × StandsFor team (step.now ∷ past) self.new
            × (row.new ≡ row_of entries_of team past step.now)) }
        ensures refused { IfErr result (λ why. (team : TeamSeen) (past : List StepSeen) → StandsFor team past self.old →
            cause_of team (world team past).sent past step.now ≡ cause_told why) }
        ensures same { IfErr result (λ _. IsSame self.new self.old) }
        ensures stands { IfErr result (λ _. (team : TeamSeen) (past : List StepSeen) → StandsFor team past self.old → StandsFor team past self.new) }
        ensures same_row { IfErr result (λ _. row.new ≡ row.old) }
        ensures steps { OnOk result (self.new.steps ≡ self.old.steps + 1) }
        ensures team { self.new.team ≡ self.old.team }
    {
        if let Some(why) = self.refusal(step) {
            return Err(why);
        }
        self.take(step, row)?;
        Ok(())
    }
}
