//! What is kept of one process of a schedule.

ghost use Rattle.std.specs.Prelude.{◌≡◌, ◌<◌, ◌≤◌, ◌^◌, ℕ, true, List, [], length, Some, Option, Ok, IfOk};
ghost use Rattle.std.specs.Option.{option_map_or};
ghost use Rattle.std.specs.List.{AllByRecursion};
ghost use Rattle.tw_num.specs.Clock.{IsNotBefore};
ghost use Rattle.tw_machine.specs.Types.{Team as TeamSeen, Datagram};
ghost use Rattle.tw_types.specs.Process.{Process, started};
ghost use Rattle.tw_types.specs.Ranges.{DatagramFits};
ghost use Rattle.tw_types.specs.Spelling.{spelling};
ghost use Rattle.tw_types.specs.Team.{IsSound};
ghost use Rattle.tw_machine.specs.Admissible.{is_start, runs_after, holds_time};
ghost use Rattle.tw_types.specs.Outputs.{nothing};
ghost use Rattle.tw_machine.specs.Admissible.{may_receive};
ghost use Rattle.tw_machine.specs.Dispatches.{Dispatch};
ghost use Rattle.tw_machine.specs.Event.{Packet};
ghost use Rattle.tw_machine.specs.Grammar.{IsAct};
ghost use Rattle.tw_machine.specs.Applied.{table_of};
ghost use Rattle.tw_machine.specs.Rows.{gone};
ghost use Rattle.tw_machine.specs.Step.{row_answer};
ghost use Rattle.tw_machine.specs.World.{deed};
ghost use Rattle.node_core.specs.Outcomes.{send_answer};
ghost use Rattle.node_core.specs.Sends.{IsSendable};
ghost use Rattle.world.specs.Datagrams.{SentStandsFor};
ghost use Rattle.world.specs.Deeds.{mode_of, is_look, IsReady, HasTaken, IsDone, IsDeed};
ghost use Rattle.world.specs.Tables.{Stands, entries_of};

use crate::bounds::Bounds;
use crate::refused::Refused;
use crate::sent::Sent;
use app_table::Table;
use node_core::{Core, Event};
use std::alloc::Global;
use tw_num::WantOfMemory;
use tw_types::{Act, Answer, Mode, Outputs, ProposeFault, RowAnswer, Step, Team, View};

/// What is kept of a process: the bounds of all its readings, over all its lives, whether it was ever started, and what runs of
/// it.
#[derive(Drop)]
pub struct Node {
    pub bounds: Option<Bounds>,
    pub started: bool,
    pub core: Option<Core<Table>>,
}

fn is_start(act: &Act) -> bool
    ensures { result ≡ is_start act.now }
{
    matches!(act, Act::First | Act::Again)
}

/// Whether the interval that the step gives, if it gives one, holds the step's team time.
fn holds_time(step: &Step) -> bool
    ensures { result ≡ holds_time step.now step.now.act }
{
    match step.act {
        Act::Reference { lo, hi } => lo <= step.t && step.t <= hi,
        _ => true,
    }
}

/// How the act starts a process, if it does.
fn mode(act: &Act) -> Option<Mode>
    ensures { result ≡ mode_of act.now }
{
    match act {
        Act::First => Some(Mode::First),
        Act::Again => Some(Mode::Again),
        _ => None,
    }
}

/// Whether a process that runs still does after the act.
fn runs_after(act: &Act) -> bool
    ensures { result ≡ runs_after act.now true }
{
    !matches!(act, Act::Crash)
}

fn row_answer(answer: Answer) -> RowAnswer
    ensures { result ≡ row_answer answer }
{
    match answer {
        Answer::Done => RowAnswer::Done,
        Answer::Dropped(reason) => RowAnswer::Dropped(reason),
    }
}

/// How a row tells the answer to a send.
fn send_answer(answer: Result<u32, ProposeFault>) -> RowAnswer
    ensures { result ≡ send_answer answer }
{
    match answer {
        Ok(seq) => RowAnswer::Sent(seq),
        Err(why) => RowAnswer::Refused(why),
    }
}

impl Node {
    ghost use Rattle.std.specs.Prelude.{◌≡◌, ◌≤◌, ◌<◌, ◌^◌, ◌||◌, ◌∷◌, ℕ, List, length, true, is_some, Option, OnOk, OnErr};
    ghost use Rattle.std.specs.List.{AllByRecursion};
    ghost use Rattle.tw_types.specs.declared.team.Team.{Team as TeamSeen};
    ghost use Rattle.tw_types.specs.Process.{Process};
    ghost use Rattle.tw_types.specs.Team.{IsSound};
    ghost use Rattle.tw_machine.specs.Admissible.{is_start, may_receive};
    ghost use Rattle.tw_machine.specs.Dispatches.{Dispatch};
    ghost use Rattle.tw_machine.specs.Grammar.{IsAct};
    ghost use Rattle.tw_machine.specs.Rows.{entries_by};
    ghost use Rattle.tw_machine.specs.World.{deed};
    ghost use Rattle.node_core.specs.Sends.{IsSendable};
    ghost use Rattle.world.specs.Bounds.{AreBoundsOf, admits, is_above};
    ghost use Rattle.world.specs.Causes.{cause_if};
    ghost use Rattle.world.specs.NodeConditions.{kept_cause, is_of};
    ghost use Rattle.world.specs.Datagrams.{SentStandsFor};
    ghost use Rattle.world.specs.Deeds.{RunsAs, NotBefore, IsReady, IsDeed};
    ghost use Rattle.world.specs.Readings.{Reading};
    ghost use Rattle.world.specs.Tables.{entries_of};

    /// Whether the step's reading may follow all earlier ones of the process, none of which is at a later team time.
    fn keeps_drift(&self, ppm: u64, step: &Step) -> bool
        requires { ppm ≤ 1000 }
        ensures { result ≡ admits ppm self.now.bounds step.now.t step.now.h }
    {
        self.bounds
            .is_none_or(|bounds| bounds.admit(ppm, step.t, step.h))
    }

    /// Whether each reading of the process is below `h`.
    fn is_below(&self, h: u64) -> bool
        ensures { result ≡ is_above self.now.bounds h }
    {
        self.bounds.is_none_or(|bounds| bounds.last < h)
    }

    /// Why the process can't take the step, after steps of which the last was at team time `latest`; `received` says whether
    /// what the step receives was sent to it.
    pub fn refusal(&self, ppm: u64, latest: u64, received: bool, step: &Step) -> Option<Refused>
        requires { ppm ≤ 1000 }
        ensures { cause_if result ≡ kept_cause ppm latest received self.now step.now }
    {
        if step.t < latest {
            return Some(Refused::Time);
        }
        if !self.keeps_drift(ppm, step) {
            return Some(Refused::Drift);
        }
        if is_start(&step.act) {
            if self.core.is_some()
                || !self.is_below(step.h)
                || (step.act == Act::First && self.started)
            {
                return Some(Refused::Start);
            }
        } else if self.core.is_none() {
            return Some(Refused::NotRunning);
        }
        if !received {
            return Some(Refused::NoDatagram);
        }
        if !holds_time(step) {
            return Some(Refused::Reference);
        }
        None
    }

    /// Starts the process where the step does. An `Err` leaves all as it was.
    fn begin(&mut self, alloc: Global, team: &Team, step: &Step) -> Result<(), WantOfMemory>
        requires sound { IsSound team.now }
        requires who { step.now.who < team.now.n }
        requires h { step.now.h < 2 ^ 60 }
        ensures started { OnOk result (self.new.started ≡ (self.old.started || is_start step.now.act)) }
        ensures ready { OnOk result ((before : Option Process) → RunsAs team.now self.old.core before → NotBefore step.now.h before →
            (is_start step.now.act || is_some self.old.core) ≡ true → IsReady team.now step.now.who step.now.h step.now.act self.new.core before) }
        ensures same_team { is_of team.now.n self.old ≡ true → is_of team.now.n self.new ≡ true }
        ensures bounds { self.new.bounds ≡ self.old.bounds }
        ensures same { OnErr result (self.new ≡ self.old) }
    {
        let Some(mode) = mode(&step.act) else {
            return Ok(());
        };
        self.core = Some(started(alloc, team, step.who, mode, step.h)?);
        self.started = true;
        Ok(())
    }

    /// Keeps the reading of a step that is taken, and starts the process where the step does. An `Err` leaves all as it was.
    pub fn note(&mut self, alloc: Global, team: &Team, step: &Step) -> Result<(), WantOfMemory>
        requires sound { IsSound team.now }
        requires who { step.now.who < team.now.n }
        requires h { step.now.h < 2 ^ 60 }
        ensures bounds { OnOk result ((readings : List Reading) → AllByRecursion (λ r. r.h ≤ step.now.h) readings →
            AreBoundsOf team.now.ppm self.old.bounds readings →
            AreBoundsOf team.now.ppm self.new.bounds (record { t = step.now.t; h = step.now.h } ∷ readings)) }
        ensures started { OnOk result (self.new.started ≡ (self.old.started || is_start step.now.act)) }
        ensures ready { OnOk result ((before : Option Process) → RunsAs team.now self.old.core before → NotBefore step.now.h before →
            (is_start step.now.act || is_some self.old.core) ≡ true → IsReady team.now step.now.who step.now.h step.now.act self.new.core before) }
        ensures same_team { is_of team.now.n self.old ≡ true → is_of team.now.n self.new ≡ true }
        ensures same { OnErr result (self.new ≡ self.old) }
    {
        let bounds = Bounds::of(team.ppm, step.t, step.h).widened(self.bounds);
        self.begin(alloc, team, step)?;
        self.bounds = Some(bounds);
        Ok(())
    }

    /// What the act of a step makes of the process, which is ready for it. Answers how the step ended and what the process
    /// then says of itself, and puts what it gives into `out`. Of a process that crashes nothing is left but what is kept of its
    /// readings and starts. A process that doesn't run does nothing.
    pub fn act(&mut self, step: &Step, sent: &Sent, out: &mut Outputs) -> (RowAnswer, View)
        requires h { step.now.h < 2 ^ 60 }
        requires act { IsAct step.now.act }
        ensures deed { (team : TeamSeen) (before : Option Process) (datagrams : List Dispatch) → IsSound team → team.line < 2 ^ 32 →
            SentStandsFor team sent.now datagrams → may_receive datagrams step.now step.now.act ≡ true →
            IsReady team step.now.who step.now.h step.now.act self.old.core before →
            IsDeed team step.now.h self.new.core result.0 result.1 out.new before (deed team step.now.who step.now.h datagrams step.now.act before) }
        ensures fits { (n : ℕ) → is_of n self.old ≡ true → AllByRecursion (IsSendable n) out.new.sends }
        ensures same_team { (n : ℕ) → is_of n self.old ≡ true → is_of n self.new ≡ true }
        ensures bounds { self.new.bounds ≡ self.old.bounds }
        ensures started { self.new.started ≡ self.old.started }
    {
        let Some(core) = &mut self.core else {
            return (silent(RowAnswer::Done, out), gone(0));
        };
        if runs_after(&step.act) {
            return act(core, step, sent, out);
        }
        let lost = core.look(step.h);
        self.core = None;
        (silent(RowAnswer::Crash, out), gone(lost.incarnation))
    }

    /// What a row shows of the table after the act: all its entries, where the act is a look at a process that has one, and
    /// else nothing.
    pub fn shown(&self, act: &Act) -> &[(u32, u64)]
        ensures entries { (team : TeamSeen) (q : Option Process) → RunsAs team self.now.core q → result.now ≡ entries_by entries_of act.now q }
        ensures few { length result.now ≤ 256 }
    {
        let Some(core) = &self.core else {
            return &[];
        };
        if is_look(act) { entries(core) } else { &[] }
    }
}

/// Whether the act is a look, after which a row shows the table.
fn is_look(act: &Act) -> bool
    ensures { result ≡ is_look act.now }
{
    matches!(act, Act::Look)
}

/// The entries of the table of a process, none where it has no table.
fn entries(core: &Core<Table>) -> &[(u32, u64)]
    ensures entries { (p : Process) → Stands core.now p → result.now ≡ option_map_or (λ (entries : List (ℕ × ℕ)). entries) (table_of entries_of p) [] }
    ensures few { length result.now ≤ 256 }
{
    match core.table() {
        Some(table) => table.entries(),
        None => &[],
    }
}

/// The process `who` of a team, which starts at its reading `h` with a table that has no entry. Where memory is refused nothing is
/// kept.
fn started(
    alloc: Global,
    team: &Team,
    who: u8,
    mode: Mode,
    h: u64,
) -> Result<Core<Table>, WantOfMemory>
    requires sound { IsSound team.now }
    requires who { who < team.now.n }
    requires reading { h < 2 ^ 60 }
    ensures stands { IfOk result (λ core. Stands core (started who mode h)) }
    ensures team { IfOk result (λ core. core.state.team ≡ team.now) }
{
    let table = Table::new(alloc)?;
    Core::new(alloc, *team, who, mode, h, table)
}

/// What is seen of a process that doesn't run: the incarnation that was lost, and no more.
fn gone(incarnation: u64) -> View
    ensures { result ≡ gone incarnation }
{
    View {
        incarnation,
        reading: None,
        up: false,
        group: 0,
        turn: 0,
        length: 0,
        passed: 0,
    }
}

/// The process receives these bytes at its reading `h`.
fn receive(core: &mut Core<Table>, bytes: &[u8], h: u64, out: &mut Outputs) -> Answer
    requires { h < 2 ^ 60 }
    ensures received { (team : TeamSeen) (d : Datagram) (p : Process) → IsSound team → team.line < 2 ^ 32 → DatagramFits team.n d →
        bytes.now ≡ spelling team.line d → core.old.state.team ≡ team → Stands core.old p → IsNotBefore h p.timing.clock →
        HasTaken team h (Packet (Ok d)) core.new (row_answer result) out.new p }
    ensures fits { AllByRecursion (IsSendable core.old.state.team.n) out.new.sends }
    ensures team { core.new.state.team ≡ core.old.state.team }
{
    core.step(Event::Packet(bytes), h, out)
}

/// What the act of a step makes of a process that runs on, but for the look at it that ends each step.
fn happen(core: &mut Core<Table>, step: &Step, sent: &Sent, out: &mut Outputs) -> RowAnswer
    requires h { step.now.h < 2 ^ 60 }
    requires act { IsAct step.now.act }
    ensures done { (team : TeamSeen) (before : Option Process) (datagrams : List Dispatch) → IsSound team → team.line < 2 ^ 32 →
        SentStandsFor team sent.now datagrams → may_receive datagrams step.now step.now.act ≡ true →
        IsReady team step.now.who step.now.h step.now.act (Some core.old) before → runs_after step.now.act true ≡ true →
        IsDone team step.now.h core.new result out.new (deed team step.now.who step.now.h datagrams step.now.act before) }
    ensures fits { AllByRecursion (IsSendable core.old.state.team.n) out.new.sends }
    ensures team { core.new.state.team ≡ core.old.state.team }
{
    match step.act {
        Act::Tick => row_answer(core.step(Event::Tick, step.h, out)),
        Act::Recv(number) => row_answer(receive(core, sent.bytes(number), step.h, out)),
        Act::Send {
            order,
            atom,
            ref payload,
        } => send_answer(core.propose(step.h, order, atom, payload.as_slice(), out)),
        Act::Reference { lo, hi } => row_answer(core.step(
            Event::Reference { lo, hi },
            step.h,
            out,
        )),
        Act::First | Act::Again => silent(RowAnswer::Start, out),
        Act::Look => silent(RowAnswer::Look, out),
        Act::Crash => silent(RowAnswer::Done, out),
    }
}

/// An act that gives nothing.
fn silent(answer: RowAnswer, out: &mut Outputs) -> RowAnswer
    ensures answer { result ≡ answer }
    ensures out { out.new ≡ nothing }
{
    out.clear();
    answer
}

/// What the act of a step makes of a process that runs on.
fn act(core: &mut Core<Table>, step: &Step, sent: &Sent, out: &mut Outputs) -> (RowAnswer, View)
    requires h { step.now.h < 2 ^ 60 }
    requires act { IsAct step.now.act }
    ensures deed { (team : TeamSeen) (before : Option Process) (datagrams : List Dispatch) → IsSound team → team.line < 2 ^ 32 →
        SentStandsFor team sent.now datagrams → may_receive datagrams step.now step.now.act ≡ true →
        IsReady team step.now.who step.now.h step.now.act (Some core.old) before → runs_after step.now.act true ≡ true →
        IsDeed team step.now.h (Some core.new) result.0 result.1 out.new before (deed team step.now.who step.now.h datagrams step.now.act before) }
    ensures fits { AllByRecursion (IsSendable core.old.state.team.n) out.new.sends }
    ensures team { core.new.state.team ≡ core.old.state.team }
{
    let answer = happen(core, step, sent, out);
    (answer, core.look(step.h))
}
