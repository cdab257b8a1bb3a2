//! An event of a node: an input is taken, its record is written, and then its datagrams are sent.

ghost use Rattle.std.specs.Prelude.{◌≡◌, ◌<◌, ◌^◌, ℕ, [], map};
ghost use Rattle.std.specs.List.{AllByRecursion};
ghost use Rattle.std.specs.Option.{option_map_or};
ghost use Rattle.tw_num.specs.Clock.{IsNotBefore};
ghost use Rattle.tw_types.specs.Team.{IsSound};
ghost use Rattle.tw_types.specs.Process.{Process};
ghost use Rattle.tw_machine.specs.Applied.{table_of};
ghost use Rattle.tw_machine.specs.Record.{entries_after};
ghost use Rattle.tw_machine.specs.Rows.{line_by};
ghost use Rattle.schedule_text.specs.Puts.{Puts};
ghost use Rattle.record_text.specs.Shown.{entries_shown};
ghost use Rattle.node_core.specs.WithMachine.{StandsWith};
ghost use Rattle.record_text.specs.Inputs.{input_seen};
ghost use Rattle.record_text.specs.Packets.{packet_seen};
ghost use Rattle.record_text.specs.Events.{event_text};
ghost use Rattle.node_loop.specs.Calls.{IsReachable};
ghost use Rattle.node_loop.specs.Happened.{IsTakable};
ghost use Rattle.node_loop.specs.Events.{meaning_by, Happens};

use crate::process::take;
use crate::sending::{Packets, put_all, spell};
use crate::spool::Spool;
use app_table::Machine;
use arrayvec::ArrayVec;
use node_core::Core;
use record_text::{Input, Packet, show_entries, write_event};
use std::alloc::Global;
use tw_io::{Sink, WriteFailed};
use tw_num::WantOfMemory;
use tw_types::{Listed, Outputs, Row, RowAnswer, RowLine, Team, View};

/// What an event gives: its row, and its datagrams as bytes.
#[derive(Drop)]
pub struct Given {
    out: Outputs,
    pub packets: Packets,
    pub row: Row,
}

impl Given {
    /// Room for what any event gives.
    pub fn new(alloc: Global) -> Result<Given, WantOfMemory> {
        Ok(Given {
            out: Outputs::new(alloc)?,
            packets: Listed::new(alloc)?,
            row: Row::new(alloc)?,
        })
    }
}

/// The first line of the row of an event.
fn line(number: u32, who: u8, answer: RowAnswer, view: View) -> RowLine
    ensures { result ≡ line_by number who answer view }
{
    RowLine {
        step: number,
        who,
        incarnation: view.incarnation,
        reading: view.reading,
        up: view.up,
        group: view.group,
        turn: view.turn,
        length: view.length,
        passed: view.passed,
        answer,
    }
}

/// The entries at the front of the snapshot of the process's machine, none where the process is blank.
fn entries<A: Machine>(core: &Core<A>) -> ArrayVec<(u32, u64), 256>
    ensures { (p : Process) → StandsWith A.empty A.after core.now p →
        result.items ≡ option_map_or (λ (content : A). entries_shown (A.snapshot_of content)) (table_of (meaning_by A.empty A.after A.snapshot_of) p) [] }
{
    let mut entries = ArrayVec::new();
    if let Some(machine) = core.table() {
        let mut bytes = [0; 4096];
        let len = machine.snapshot(&mut bytes);
        show_entries(&bytes[..len], &mut entries);
    }
    entries
}

/// What a row shows of the machine after an input: its entries after a look, and else nothing.
fn shown<A: Machine>(core: &Core<A>, input: &Input<'_>) -> ArrayVec<(u32, u64), 256>
    ensures { (p : Process) → StandsWith A.empty A.after core.now p →
        result.items ≡ entries_after (meaning_by A.empty A.after A.snapshot_of) (input_seen input.now) p }
{
    match input {
        Input::Look => entries(core),
        _ => ArrayVec::new(),
    }
}

/// Takes an input, which is the event of this number, at the reading `h`, and makes `given` what it gives.
pub fn happen<A: Machine>(
    core: &mut Core<A>,
    team: &Team,
    who: u8,
    number: u32,
    h: u64,
    input: &Input<'_>,
    given: &mut Given,
)
    requires sound { IsSound team.now }
    requires team { core.old.state.team ≡ team.now }
    requires h { h < 2 ^ 60 }
    requires takable { IsTakable (input_seen input.now) }
    ensures happens { (p : Process) → StandsWith A.empty A.after core.old p → IsNotBefore h p.timing.clock →
        Happens A.empty A.after (meaning_by A.empty A.after A.snapshot_of) team.now who number h (input_seen input.now) p core.new given.new.row given.new.packets }
    ensures reachable { AllByRecursion (IsReachable team.now.n) (map packet_seen given.new.packets) }
    ensures team { core.new.state.team ≡ core.old.state.team }
{
    let answer = take(core, h, input, &mut given.out);
    let view = core.look(h);
    let entries = shown(core, input);
    spell(team, given.out.sends.as_slice(), &mut given.packets);
    given.row.fill(line(number, who, answer, view), &mut given.out, 1, &entries);
}

/// Writes the record of an event, at once where it has room in the spool.
pub fn record<K: Sink>(
    spool: &mut Spool,
    h: u64,
    input: &Input<'_>,
    row: &Row,
    packets: &[Packet],
    sink: &mut K,
) -> Result<(), WriteFailed>
    ensures { Puts (K.taken sink.old) (K.taken sink.new) (K.faults sink.old) (K.faults sink.new) result (event_text h (input_seen input.now) row.now (map packet_seen packets.now)) }
{
    spool.clear();
    match write_event(h, input, row, packets, spool) {
        Ok(()) => put_all(sink, spool.bytes()),
        Err(_) => write_event(h, input, row, packets, sink),
    }
}
