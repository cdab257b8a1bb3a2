//! Calls of `world`.

ghost use Rattle.tw_types.specs.Team.{IsSound};

use crate::rows::{blank, text};
use call_words::{Words, shown};
use schedule_text::{read_step, read_team};
use std::alloc::{AllocError, Global};
use tw_types::{Row, Team};
use world::{Refused, World};

/// The schedule that the lines make: its processes, and the row of the last step that was taken.
#[derive(Drop)]
pub struct Worlds {
    world: World,
    row: Row,
}

/// Why a step was refused, and the cause that is told.
fn refused(alloc: Global, why: Refused) -> Result<String, AllocError> {
    format!(in alloc; "{why:?}, {:?}", why.cause())
}

impl Worlds {
    pub fn new(alloc: Global) -> Result<Worlds, AllocError> {
        Worlds::of(alloc, Team::OF_THREE)
    }

    fn of(alloc: Global, team: Team) -> Result<Worlds, AllocError>
        requires { IsSound team }
    {
        match (World::new(alloc, team), blank(alloc)) {
            (Ok(world), Ok(row)) => Ok(Worlds { world, row }),
            _ => Err(AllocError),
        }
    }

    /// Begins the schedule of the team of this line, where it is of one that is sound.
    fn begin(&mut self, alloc: Global, words: &mut Words<'_>) -> Result<String, AllocError> {
        match read_team(words.line().as_bytes()) {
            Ok(team) if team.check().is_ok() => match Worlds::of(alloc, team) {
                Ok(worlds) => *self = worlds,
                Err(_) => return Err(AllocError),
            },
            _ => words.are_wrong = true,
        }
        Ok(String::new(alloc))
    }

    /// Takes the step of this line, where the schedule isn't at its end. None where it is, or the line is of no step.
    fn take(&mut self, line: &[u8]) -> Option<Result<(), Refused>> {
        let step = read_step(self.world.team(), line).ok()?;
        if self.world.steps() >= 100_000 {
            return None;
        }
        Some(self.world.apply(&step, &mut self.row))
    }

    /// What the step of the next words answers: its row, or why it was refused.
    fn step(&mut self, alloc: Global, words: &mut Words<'_>) -> Result<String, AllocError> {
        match self.take(words.line().as_bytes()) {
            Some(Ok(())) => self.text(alloc),
            Some(Err(why)) => refused(alloc, why),
            None => {
                words.are_wrong = true;
                Ok(String::new(alloc))
            }
        }
    }

    /// The text of the last row.
    fn text(&self, alloc: Global) -> Result<String, AllocError> {
        text(alloc, &self.row, u16::MAX, 0)
    }

    /// `begin` with a team's line, `step` with a step's line, which gives its row; `row` and `sends`, of the last step that was
    /// taken; `memory`, the refusal that no step shows.
    pub fn call(&mut self, alloc: Global, words: &mut Words<'_>) -> Result<String, AllocError> {
        match words.among(&["begin", "step", "row", "sends", "memory"]) {
            0 => self.begin(alloc, words),
            1 => self.step(alloc, words),
            2 => self.text(alloc),
            3 => shown(alloc, &self.row.out.sends.as_slice()),
            4 => refused(alloc, Refused::WantOfMemory),
            _ => Ok(String::new(alloc)),
        }
    }
}
