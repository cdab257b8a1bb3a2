//! The steps of a schedule, line by line: each line's step is taken, and its row is written before the next line is read.

ghost use Rattle.std.specs.Prelude.{◌≡◌, ◌⊎◌, ℕ, ◌≤◌, ◌<◌, ◌^◌, ◌+◌, ◌++◌, [], ◌∷◌, List, IfErr, IfOk, OnOk, Some, length};
ghost use Rattle.tw_io.specs.declared.line_reader.Line.{Line as LineSeen};
ghost use Rattle.tw_io.specs.Faults.{IsRisen};
ghost use Rattle.tw_io.specs.LineReader.{held};
ghost use Rattle.tw_types.specs.Team.{IsSound};
ghost use Rattle.tw_machine.specs.Types.{Team as TeamSeen, Step as StepSeen};
ghost use Rattle.world.specs.Causes.{cause_told};
ghost use Rattle.world.specs.StandsFor.{StandsFor};
ghost use Rattle.replayer.specs.Replay.{step_limit};
ghost use Rattle.replayer.specs.Answers.{GaveUp, TellsOfText, Ends};
ghost use Rattle.replayer.specs.NextLine.{refusal_of, TakesLine, RefusesLine, IsTaken, IsNext, EndsAt, IsSoundLine, EndsBySource, IsEnd};

use crate::row_room::{RowRoom, put_row};
use schedule_text::{Cause, Status, read_step, read_team};
use std::alloc::Global;
use tw_io::{Line, LineReader, Sink, Source};
use tw_num::WantOfMemory;
use tw_types::{Row, Team};
use world::{Refused, World};

/// The most steps of a schedule.
const STEPS: u32 = 100_000;

/// The most bytes that a line may have, its line feed not counted.
const LINE: usize = 9_000;

/// Room for one line, one row and its text.
#[derive(Drop)]
pub struct Rooms {
    reader: LineReader,
    row: Row,
    text: RowRoom,
}

impl Rooms {
    ghost use Rattle.std.specs.Prelude.{◌≡◌, [], IfOk};
    ghost use Rattle.tw_io.specs.LineReader.{held};

    pub fn new(alloc: Global) -> Result<Rooms, WantOfMemory>
        ensures held { IfOk result (λ rooms. held rooms.reader ≡ []) }
        ensures limit { IfOk result (λ rooms. rooms.reader.limit ≡ 9000) }
    {
        Ok(Rooms {
            reader: LineReader::new(alloc, LINE)?,
            row: Row::new(alloc)?,
            text: RowRoom::new(alloc)?,
        })
    }
}

/// Why the steps end at a line.
#[derive(Clone, Copy)]
enum Refusal {
    /// It can't be the next line.
    Cause(Cause),
    /// There was no memory for its step.
    WantOfMemory,
}

/// What comes behind the lines that were taken.
#[derive(Drop)]
enum Next {
    /// A line whose step was taken.
    Taken(Line),
    /// The end of the replay.
    End(Status),
}

/// What a refusal of the world means for its line.
fn refused_by(why: Refused) -> Refusal
    ensures { result ≡ refusal_of (cause_told why) }
{
    match why.cause() {
        Some(cause) => Refusal::Cause(cause),
        None => Refusal::WantOfMemory,
    }
}

/// Takes the step that a line spells, and makes `row` its row.
fn take_line(world: &mut World, team: &Team, line: &[u8], row: &mut Row) -> Result<(), Refusal>
    requires few { world.old.steps < 100000 }
    requires team { world.old.team ≡ team.now }
    ensures taken { OnOk result ((past : List StepSeen) → StandsFor team.now past world.old → TakesLine team.now past line.now world.new row.new) }
    ensures refused { IfErr result (λ why. (past : List StepSeen) → StandsFor team.now past world.old → RefusesLine team.now past line.now why) }
    ensures steps { OnOk result (world.new.steps ≡ world.old.steps + 1) }
    ensures team { OnOk result (world.new.team ≡ world.old.team) }
{
    // The proofs take from this that the team's size is a number of one byte.
    let _processes = team.n;
    let Ok(step) = read_step(team, line) else {
        return Err(Refusal::Cause(Cause::Grammar));
    };
    match world.apply(&step, row) {
        Ok(()) => Ok(()),
        Err(why) => Err(refused_by(why)),
    }
}

/// Reads the next line after so many steps, and takes the step that it spells. The row of the room is its row then.
fn next_step<S: Source>(
    world: &mut World,
    team: &Team,
    steps: u32,
    rooms: &mut Rooms,
    src: &mut S,
) -> Next
    requires few { world.old.steps < 100000 }
    requires team { world.old.team ≡ team.now }
    requires count { world.old.steps ≡ steps }
    requires limit { rooms.old.reader.limit ≡ 9000 }
    ensures next { (past : List StepSeen) (bytes : List ℕ) → StandsFor team.now past world.old → S.left src.old ≡ Some bytes →
        IsNext team.now past (held rooms.old.reader ++ bytes) (held rooms.new.reader) (S.left src.new) world.new rooms.new.row result }
    ensures steps { (found : LineSeen) → result ≡ Next.Taken found → world.new.steps ≡ steps + 1 }
    ensures team { (found : LineSeen) → result ≡ Next.Taken found → world.new.team ≡ team.now }
    ensures limit { rooms.new.reader.limit ≡ 9000 }
    ensures end { IsEnd result }
    ensures monotone { S.faults src.old ≤ S.faults src.new }
    ensures fault { result ≡ Next.End Status.ReadFault → IsRisen (S.faults src.old) (S.faults src.new) }
{
    let number = u64::from(steps) + 2;
    let found = match rooms.reader.next(src) {
        Ok(Some(found)) => found,
        Ok(None) => return Next::End(Status::Ok),
        Err(_) => return Next::End(Status::ReadFault),
    };
    if found == Line::Longer {
        return Next::End(Status::BadSchedule(number, Cause::Grammar));
    }
    match take_line(world, team, rooms.reader.line(), &mut rooms.row) {
        Ok(()) => Next::Taken(found),
        Err(Refusal::Cause(cause)) => Next::End(Status::BadSchedule(number, cause)),
        Err(Refusal::WantOfMemory) => Next::End(Status::WantOfMemory),
    }
}

/// How a replay ends after as many steps as there may be. Any byte more is one too many.
fn end_of_steps<S: Source>(reader: &mut LineReader, src: &mut S) -> Status
    requires { reader.old.limit ≡ 9000 }
    ensures end { (team : TeamSeen) (past : List StepSeen) (bytes : List ℕ) → length past ≡ step_limit → S.left src.old ≡ Some bytes →
        EndsAt team past (held reader.old ++ bytes) (held reader.new) (S.left src.new) result }
    ensures own { EndsBySource result }
    ensures monotone { S.faults src.old ≤ S.faults src.new }
    ensures fault { result ≡ Status.ReadFault → IsRisen (S.faults src.old) (S.faults src.new) }
{
    match reader.is_at_end(src) {
        Ok(true) => Status::Ok,
        Ok(false) => Status::TooLong,
        Err(_) => Status::ReadFault,
    }
}

/// Takes the steps that the lines spell, one after the other, and writes the row of each before the next line is read.
fn take_steps<S: Source, K: Sink>(
    world: &mut World,
    team: &Team,
    rooms: &mut Rooms,
    src: &mut S,
    sink: &mut K,
) -> Status
    requires stands { StandsFor team.now [] world.old }
    requires limit { rooms.old.reader.limit ≡ 9000 }
    ensures ends { (first bytes before : List ℕ) → IsSoundLine first team.now → S.left src.old ≡ Some bytes → K.taken sink.old ≡ Some before →
        Ends (first ++ 10 ∷ (held rooms.old.reader ++ bytes)) (S.left src.new) before (K.taken sink.new) result }
    ensures others { TellsOfText result ⊎ GaveUp result }
    ensures read_fault { result ≡ Status.ReadFault → IsRisen (S.faults src.old) (S.faults src.new) }
    ensures write_fault { result ≡ Status.WriteFault → IsRisen (K.faults sink.old) (K.faults sink.new) }
{
    for steps in 0..STEPS {
        let found = match next_step(world, team, steps, rooms, src) {
            Next::Taken(found) => found,
            Next::End(status) => return status,
        };
        let Ok(()) = put_row(&rooms.row, &mut rooms.text, sink) else {
            return Status::WriteFault;
        };
        if found == Line::Last {
            return Status::Ok;
        }
    }
    end_of_steps(&mut rooms.reader, src)
}

/// Reads the first line: a team without a fault, or the end of the replay. With the team comes whether the line was the last.
fn first_line<S: Source>(reader: &mut LineReader, src: &mut S) -> Result<(Team, Line), Status>
    requires { reader.old.limit ≡ 9000 }
    ensures first { IfOk result (λ first. (bytes : List ℕ) → S.left src.old ≡ Some bytes →
        (line : List ℕ) × IsTaken (held reader.old ++ bytes) line first.1 (held reader.new) (S.left src.new) × IsSoundLine line first.0) }
    ensures sound { IfOk result (λ first. IsSound first.0) }
    ensures end { IfErr result (λ status. (bytes before : List ℕ) → S.left src.old ≡ Some bytes → Ends (held reader.old ++ bytes) (S.left src.new) before (Some before) status) }
    ensures own { IfErr result EndsBySource }
    ensures limit { reader.new.limit ≡ 9000 }
    ensures monotone { S.faults src.old ≤ S.faults src.new }
    ensures fault { IfErr result (λ status. status ≡ Status.ReadFault → IsRisen (S.faults src.old) (S.faults src.new)) }
{
    let found = match reader.next(src) {
        Ok(Some(found)) => found,
        Ok(None) => return Err(Status::BadSchedule(1, Cause::Grammar)),
        Err(_) => return Err(Status::ReadFault),
    };
    if found == Line::Longer {
        return Err(Status::BadSchedule(1, Cause::Grammar));
    }
    let Ok(team) = read_team(reader.line()) else {
        return Err(Status::BadSchedule(1, Cause::Grammar));
    };
    match team.check() {
        Ok(()) => Ok((team, found)),
        Err(fault) => Err(Status::BadTeam(fault)),
    }
}

/// Replays the lines of a source: the team's, and then those of the steps.
pub fn replay_lines<S: Source, K: Sink>(
    alloc: Global,
    rooms: &mut Rooms,
    src: &mut S,
    sink: &mut K,
) -> Status
    requires limit { rooms.old.reader.limit ≡ 9000 }
    requires held { held rooms.old.reader ≡ [] }
    ensures ends { (all before : List ℕ) → S.left src.old ≡ Some all → K.taken sink.old ≡ Some before → Ends all (S.left src.new) before (K.taken sink.new) result }
    ensures others { TellsOfText result ⊎ GaveUp result }
    ensures read_fault { result ≡ Status.ReadFault → IsRisen (S.faults src.old) (S.faults src.new) }
    ensures write_fault { result ≡ Status.WriteFault → IsRisen (K.faults sink.old) (K.faults sink.new) }
{
    let (team, found) = match first_line(&mut rooms.reader, src) {
        Ok(first) => first,
        Err(status) => return status,
    };
    if found == Line::Last {
        return Status::Ok;
    }
    let Ok(mut world) = World::new(alloc, team) else {
        return Status::WantOfMemory;
    };
    take_steps(&mut world, &team, rooms, src, sink)
}
