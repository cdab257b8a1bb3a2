//! The text of rows. No row's text takes memory.

ghost use Rattle.std.specs.Prelude.{◌≡◌, ◌≤◌, ◌<◌, ◌++◌, ◌∷◌, ◌^◌, [], ℕ, List, Some, map, length, take, OnOk, OnErr};
ghost use Rattle.std.specs.List.{flat_map};
ghost use Rattle.std.specs.Option.{option_map};
ghost use Rattle.tw_io.specs.Faults.{IsRisen};
ghost use Rattle.tw_types.specs.Printed.{made_printed, contents_of, sends_printed};
ghost use Rattle.tw_machine.specs.Grammar.{order_word, atom_word};
ghost use Rattle.tw_machine.specs.RowText.{flag_text, reading_text, how_word, member_text, made_line, send_line, entry_line, row_line, answer_words, line_of, lines_before_sends, row_text};
ghost use Rattle.schedule_text.specs.Puts.{Puts};
ghost use Rattle.schedule_text.specs.LineFields.{field_text};
ghost use Rattle.schedule_text.specs.RowLines.{pass_text, early_text, entry_text, deliveries_text};

use crate::answer::{answer_fields, contents_fields};
use crate::line::{Field, put_line};
use arrayvec::ArrayVec;
use tw_io::{Sink, WriteFailed};
use tw_types::{
    Atom, Body, Datagram, Decision, How, Kept, Order, Outputs, Pass, Row, RowAnswer, Seat,
};

fn flag_field(flag: bool) -> Field<'static>
    ensures { field_text result ≡ flag_text flag }
{
    Field::Word(if flag { "1" } else { "0" })
}

fn reading_field(reading: Option<u64>) -> Field<'static>
    ensures { field_text result ≡ reading_text reading }
{
    match reading {
        None => Field::Word("-"),
        Some(reading) => Field::Number(reading),
    }
}

/// The word that names an order.
pub fn order_name(order: Order) -> &'static str
    ensures { result.now ≡ order_word order }
{
    match order {
        Order::Unordered => "unordered",
        Order::Total => "total",
        Order::Timed => "timed",
    }
}

/// The word that names an atomicity.
pub fn atom_name(atom: Atom) -> &'static str
    ensures { result.now ≡ atom_word atom }
{
    match atom {
        Atom::Weak => "weak",
        Atom::Strong => "strong",
        Atom::Strict => "strict",
    }
}

fn how_name(how: How) -> &'static str
    ensures { result.now ≡ how_word how }
{
    match how {
        How::Now => "now",
        How::Earlier => "earlier",
        How::Late => "late",
    }
}

fn member_fields(seats: &ArrayVec<Seat, 15>) -> ArrayVec<Field<'static>, 15>
    ensures { map field_text result.items ≡ map member_text (map (λ s. s.member) seats.now.items) }
{
    let mut fields = ArrayVec::new();
    for seat in seats.as_slice() {
        let member = seat.member;
        fields.push(Field::Pair(u64::from(member.who), member.incarnation));
    }
    fields
}

/// Writes the first line of a row. An `Err` leaves a front of it written.
pub fn write_line<K: Sink>(row: &Row, sink: &mut K) -> Result<(), WriteFailed>
    ensures { Puts (K.taken sink.old) (K.taken sink.new) (K.faults sink.old) (K.faults sink.new) result (row_line row.now) }
{
    let line = &row.line;
    let fields = [
        Field::Number(u64::from(line.step)),
        Field::Number(u64::from(line.who)),
        Field::Number(line.incarnation),
        reading_field(line.reading),
        flag_field(line.up),
        Field::Pair(line.group, line.turn),
        Field::Number(line.length),
        Field::Number(line.passed),
    ];
    put_line(sink, &fields, &answer_fields(line.answer))
}

/// Writes a line of the words that tell how a step ended, and of nothing else. An `Err` leaves a front of it written.
pub fn write_answer<K: Sink>(answer: RowAnswer, sink: &mut K) -> Result<(), WriteFailed>
    ensures { Puts (K.taken sink.old) (K.taken sink.new) (K.faults sink.old) (K.faults sink.new) result (line_of (answer_words answer)) }
{
    put_line(sink, &answer_fields(answer), &[])
}

fn put_made<K: Sink>(sink: &mut K, made: &Decision) -> Result<(), WriteFailed>
    ensures { Puts (K.taken sink.old) (K.taken sink.new) (K.faults sink.old) (K.faults sink.new) result (made_line (Some (made_printed made.now))) }
{
    let fields = [
        Field::Plus,
        Field::Word("made"),
        Field::Pair(made.group, made.turn),
        Field::Word("start"),
        Field::Number(made.start),
        Field::Word("low"),
        Field::Number(made.low),
        Field::Word("len"),
        Field::Sum(made.low, made.window.len() as u64),
        Field::Word("members"),
    ];
    put_line(sink, &fields, &member_fields(&made.seats))
}

fn put_pass<K: Sink>(sink: &mut K, pass: &Pass) -> Result<(), WriteFailed>
    ensures { Puts (K.taken sink.old) (K.taken sink.new) (K.faults sink.old) (K.faults sink.new) result (pass_text pass.now) }
{
    let entry = &pass.kept.entry;
    let fields = [
        Field::Plus,
        Field::Word("pass"),
        Field::Number(pass.position),
        Field::Id(entry.id),
        Field::Word(order_name(entry.order)),
        Field::Word(atom_name(entry.atom)),
        Field::Number(entry.stamp),
        Field::Word(how_name(pass.how)),
        Field::Bytes(&pass.kept.payload),
    ];
    put_line(sink, &fields, &[])
}

fn put_early<K: Sink>(sink: &mut K, kept: &Kept) -> Result<(), WriteFailed>
    ensures { Puts (K.taken sink.old) (K.taken sink.new) (K.faults sink.old) (K.faults sink.new) result (early_text kept.now) }
{
    let entry = &kept.entry;
    let fields = [
        Field::Plus,
        Field::Word("early"),
        Field::Id(entry.id),
        Field::Word(order_name(entry.order)),
        Field::Word(atom_name(entry.atom)),
        Field::Number(entry.stamp),
        Field::Bytes(&kept.payload),
    ];
    put_line(sink, &fields, &[])
}

fn put_send<K: Sink>(sink: &mut K, number: u64, to: u8, body: &Body) -> Result<(), WriteFailed>
    ensures { Puts (K.taken sink.old) (K.taken sink.new) (K.faults sink.old) (K.faults sink.new) result (send_line (record { number = number; to = to; contents = contents_of body.now })) }
{
    let fields = [
        Field::Plus,
        Field::Word("send"),
        Field::Number(number),
        Field::Word("to"),
        Field::Number(u64::from(to)),
    ];
    put_line(sink, &fields, &contents_fields(body))
}

fn put_entry<K: Sink>(sink: &mut K, key: u32, value: u64) -> Result<(), WriteFailed>
    ensures { Puts (K.taken sink.old) (K.taken sink.new) (K.faults sink.old) (K.faults sink.new) result (entry_text (record { 0 = key; 1 = value })) }
{
    let fields = [
        Field::Plus,
        Field::Word("entry"),
        Field::Number(u64::from(key)),
        Field::Number(value),
    ];
    put_line(sink, &fields, &[])
}

fn put_passes<K: Sink>(sink: &mut K, passes: &[Pass]) -> Result<(), WriteFailed>
    ensures { Puts (K.taken sink.old) (K.taken sink.new) (K.faults sink.old) (K.faults sink.new) result (flat_map pass_text passes.now) }
{
    for pass in passes {
        put_pass(sink, pass)?;
    }
    Ok(())
}

fn put_earlies<K: Sink>(sink: &mut K, earlies: &[Kept]) -> Result<(), WriteFailed>
    ensures { Puts (K.taken sink.old) (K.taken sink.new) (K.faults sink.old) (K.faults sink.new) result (flat_map early_text earlies.now) }
{
    for kept in earlies {
        put_early(sink, kept)?;
    }
    Ok(())
}

/// Writes the lines of datagrams that are numbered from `first` on.
fn put_sends<K: Sink>(sink: &mut K, first: u32, sends: &[(u8, Datagram)]) -> Result<(), WriteFailed>
    ensures { Puts (K.taken sink.old) (K.taken sink.new) (K.faults sink.old) (K.faults sink.new) result (flat_map send_line (sends_printed first sends.now)) }
{
    let mut number = u64::from(first);
    for (to, datagram) in sends {
        put_send(sink, number, *to, &datagram.body)?;
        number += 1;
    }
    Ok(())
}

fn put_entries<K: Sink>(sink: &mut K, entries: &[(u32, u64)]) -> Result<(), WriteFailed>
    ensures { Puts (K.taken sink.old) (K.taken sink.new) (K.faults sink.old) (K.faults sink.new) result (flat_map entry_text entries.now) }
{
    for (key, value) in entries {
        put_entry(sink, *key, *value)?;
    }
    Ok(())
}

fn put_made_or_nothing<K: Sink>(sink: &mut K, out: &Outputs) -> Result<(), WriteFailed>
    ensures { Puts (K.taken sink.old) (K.taken sink.new) (K.faults sink.old) (K.faults sink.new) result (made_line (option_map made_printed out.now.made)) }
{
    match &out.made {
        None => Ok(()),
        Some(made) => put_made(sink, made),
    }
}

/// Writes a line for each thing that was decided or delivered in a step.
fn put_deliveries<K: Sink>(sink: &mut K, out: &Outputs) -> Result<(), WriteFailed>
    ensures { Puts (K.taken sink.old) (K.taken sink.new) (K.faults sink.old) (K.faults sink.new) result (deliveries_text out.now) }
{
    put_made_or_nothing(sink, out)?;
    put_passes(sink, out.passes.as_slice())?;
    put_earlies(sink, out.earlies.as_slice())
}

fn put_below_line<K: Sink>(sink: &mut K, row: &Row) -> Result<(), WriteFailed>
    ensures { Puts (K.taken sink.old) (K.taken sink.new) (K.faults sink.old) (K.faults sink.new) result (lines_before_sends row.now) }
{
    put_deliveries(sink, &row.out)
}

/// Writes what of a row stands before its datagrams: its line, and what was decided and delivered in the step. An `Err` leaves
/// a front of it written.
pub fn write_before_sends<K: Sink>(row: &Row, sink: &mut K) -> Result<(), WriteFailed>
    ensures { Puts (K.taken sink.old) (K.taken sink.new) (K.faults sink.old) (K.faults sink.new) result (row_line row.now ++ lines_before_sends row.now) }
{
    write_line(row, sink)?;
    put_below_line(sink, row)
}

/// Writes a line for each datagram of a row. An `Err` leaves a front of them written.
pub fn write_sends<K: Sink>(row: &Row, sink: &mut K) -> Result<(), WriteFailed>
    ensures { Puts (K.taken sink.old) (K.taken sink.new) (K.faults sink.old) (K.faults sink.new) result (flat_map send_line row.now.sends) }
{
    put_sends(sink, row.first, row.out.sends.as_slice())
}

/// Writes a line for each entry of the table that a row shows. An `Err` leaves a front of them written.
pub fn write_entries<K: Sink>(row: &Row, sink: &mut K) -> Result<(), WriteFailed>
    ensures { Puts (K.taken sink.old) (K.taken sink.new) (K.faults sink.old) (K.faults sink.new) result (flat_map entry_line row.now.entries) }
{
    put_entries(sink, &row.entries)
}

fn put_row<K: Sink>(sink: &mut K, row: &Row) -> Result<(), WriteFailed>
    ensures { Puts (K.taken sink.old) (K.taken sink.new) (K.faults sink.old) (K.faults sink.new) result (row_text row.now) }
{
    write_before_sends(row, sink)?;
    write_sends(row, sink)?;
    write_entries(row, sink)
}

/// Writes the text of a row: its line, and a line for each thing that its step gave. An `Err` leaves a front of the text
/// written.
pub fn write_row<K: Sink>(row: &Row, sink: &mut K) -> Result<(), WriteFailed>
    ensures written { OnOk result ((before : List ℕ) → K.taken sink.old ≡ Some before → K.taken sink.new ≡ Some (before ++ row_text row.now)) }
    ensures cut { OnErr result ((before : List ℕ) → K.taken sink.old ≡ Some before → (n : ℕ) × (K.taken sink.new ≡ Some (before ++ take n (row_text row.now)))) }
    ensures monotone { K.faults sink.old ≤ K.faults sink.new }
    ensures fault { OnErr result (IsRisen (K.faults sink.old) (K.faults sink.new)) }
{
    put_row(sink, row)
}
