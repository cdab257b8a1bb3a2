//! The record of a node is written.

ghost use Rattle.std.specs.Prelude.{◌≡◌, ℕ, ◌∷◌, [], ◌++◌, map};
ghost use Rattle.std.specs.List.{flat_map};
ghost use Rattle.tw_types.specs.Spelling.{spelling};
ghost use Rattle.tw_machine.specs.Grammar.{team_line};
ghost use Rattle.tw_machine.specs.Record.{Told, in_line, packet_line, core_line, mode_word, told_text};
ghost use Rattle.tw_machine.specs.RowText.{row_line, entry_line};
ghost use Rattle.schedule_text.specs.Puts.{Puts};
ghost use Rattle.record_text.specs.Inputs.{input_seen};
ghost use Rattle.record_text.specs.Packets.{packet_seen};
ghost use Rattle.record_text.specs.Events.{event_text};

use crate::input::Input;
use crate::packet::Packet;
use schedule_text::{
    Field, atom_name, order_name, put_line, write_before_sends, write_entries, write_line,
};
use tw_io::{Sink, WriteFailed};
use tw_types::{Mode, Row, Team};

fn mode_name(mode: Mode) -> &'static str
    ensures { result.now ≡ mode_word mode }
{
    match mode {
        Mode::First => "first",
        Mode::Again => "again",
    }
}

fn put_team<K: Sink>(sink: &mut K, team: &Team) -> Result<(), WriteFailed>
    ensures { Puts (K.taken sink.old) (K.taken sink.new) (K.faults sink.old) (K.faults sink.new) result (team_line team.now ++ 10 ∷ []) }
{
    let fields = [
        Field::Word("team"),
        Field::Number(u64::from(team.n)),
        Field::Number(u64::from(team.line)),
        Field::Number(team.ppm),
        Field::Number(team.eps),
        Field::Number(team.delta),
        Field::Number(team.pace),
        Field::Number(team.decide),
        Field::Number(team.ring),
        Field::Number(team.slot),
        Field::Number(team.lease),
        Field::Number(team.quarantine),
        Field::Number(team.theta),
    ];
    put_line(sink, &fields, &[])
}

fn put_core<K: Sink>(sink: &mut K, who: u8, mode: Mode, h: u64) -> Result<(), WriteFailed>
    ensures { Puts (K.taken sink.old) (K.taken sink.new) (K.faults sink.old) (K.faults sink.new) result (core_line who mode h) }
{
    let fields = [
        Field::Word("core"),
        Field::Number(u64::from(who)),
        Field::Word(mode_name(mode)),
        Field::Number(h),
    ];
    put_line(sink, &fields, &[])
}

/// Writes what a record begins with: the line of the team, and that of process `who`, which starts in this mode as its clock
/// reads `h`. An `Err` leaves a front of the text written.
pub fn write_start<K: Sink>(
    team: &Team,
    who: u8,
    mode: Mode,
    h: u64,
    sink: &mut K,
) -> Result<(), WriteFailed>
    ensures { Puts (K.taken sink.old) (K.taken sink.new) (K.faults sink.old) (K.faults sink.new) result ((team_line team.now ++ 10 ∷ []) ++ core_line who mode h) }
{
    put_team(sink, team)?;
    put_core(sink, who, mode, h)
}

/// Writes the line of an input at the reading `h`.
fn put_input<K: Sink>(sink: &mut K, h: u64, input: &Input<'_>) -> Result<(), WriteFailed>
    ensures { Puts (K.taken sink.old) (K.taken sink.new) (K.faults sink.old) (K.faults sink.new) result (in_line h (input_seen input.now)) }
{
    let front = [Field::Word("in"), Field::Number(h)];
    match *input {
        Input::Tick => put_line(sink, &front, &[Field::Word("tick")]),
        Input::Packet(bytes) => put_line(
            sink,
            &front,
            &[Field::Word("packet"), Field::Bytes(bytes)],
        ),
        Input::Reference { lo, hi } => put_line(
            sink,
            &front,
            &[Field::Word("ref"), Field::Number(lo), Field::Number(hi)],
        ),
        Input::Send {
            order,
            atom,
            payload,
        } => put_line(
            sink,
            &front,
            &[
                Field::Word("send"),
                Field::Word(order_name(order)),
                Field::Word(atom_name(atom)),
                Field::Bytes(payload),
            ],
        ),
        Input::Look => put_line(sink, &front, &[Field::Word("look")]),
    }
}

/// Writes the line of a datagram.
fn put_packet<K: Sink>(sink: &mut K, packet: &Packet) -> Result<(), WriteFailed>
    ensures { Puts (K.taken sink.old) (K.taken sink.new) (K.faults sink.old) (K.faults sink.new) result (packet_line (packet_seen packet.now)) }
{
    let fields = [
        Field::Plus,
        Field::Word("out"),
        Field::Number(u64::from(packet.to)),
        Field::Bytes(packet.bytes()),
    ];
    put_line(sink, &fields, &[])
}

fn put_packets<K: Sink>(sink: &mut K, packets: &[Packet]) -> Result<(), WriteFailed>
    ensures { Puts (K.taken sink.old) (K.taken sink.new) (K.faults sink.old) (K.faults sink.new) result (flat_map packet_line (map packet_seen packets.now)) }
{
    for packet in packets {
        put_packet(sink, packet)?;
    }
    Ok(())
}

fn put_event<K: Sink>(
    sink: &mut K,
    h: u64,
    input: &Input<'_>,
    row: &Row,
    packets: &[Packet],
) -> Result<(), WriteFailed>
    ensures { Puts (K.taken sink.old) (K.taken sink.new) (K.faults sink.old) (K.faults sink.new) result (event_text h (input_seen input.now) row.now (map packet_seen packets.now)) }
{
    put_input(sink, h, input)?;
    write_before_sends(row, sink)?;
    put_packets(sink, packets)?;
    write_entries(row, sink)
}

/// Writes the record of an event: its input at the reading `h`, its row without the datagrams that this has, and these packets
/// in their place. An `Err` leaves a front of the text written.
pub fn write_event<K: Sink>(
    h: u64,
    input: &Input<'_>,
    row: &Row,
    packets: &[Packet],
    sink: &mut K,
) -> Result<(), WriteFailed>
    ensures text { Puts (K.taken sink.old) (K.taken sink.new) (K.faults sink.old) (K.faults sink.new) result (event_text h (input_seen input.now) row.now (map packet_seen packets.now)) }
    // Where the packets are the spellings of an event's datagrams, that is the event's text.
    ensures told { (line : ℕ) (t : Told) → t.h ≡ h → t.input ≡ input_seen input.now → t.row ≡ row.now →
        map packet_seen packets.now ≡ map (λ s. (s.0, spelling line s.1)) t.sends →
        event_text h (input_seen input.now) row.now (map packet_seen packets.now) ≡ told_text line t }
{
    put_event(sink, h, input, row, packets)
}

/// Writes the answer to a client's look: the line of its row, and a line for each entry of the table that it shows. An `Err`
/// leaves a front of the text written.
pub fn write_look<K: Sink>(row: &Row, sink: &mut K) -> Result<(), WriteFailed>
    ensures { Puts (K.taken sink.old) (K.taken sink.new) (K.faults sink.old) (K.faults sink.new) result (row_line row.now ++ flat_map entry_line row.now.entries) }
{
    write_line(row, sink)?;
    write_entries(row, sink)
}
