//! Every row can be printed: its numbers have room, and its payloads are bytes. Nothing here does anything but read.

ghost use Rattle.std.specs.Prelude.{◌≡◌, Some, map, length, ◌+◌, ◌≤◌};
ghost use Rattle.std.specs.List.{AllByRecursion};
ghost use Rattle.std.specs.Option.{option_map};
ghost use Rattle.tw_types.specs.Printed.{made_printed, update_printed, pass_printed, sends_printed, entry_printed, contents_of};
ghost use Rattle.tw_machine.specs.RowLimits.{HasRoom, IsByte, IdFits, MemberFits, WireFits, ReasonFits, AnswerFits, ReadingFits, UpdateFits, MadeFits, PassFits, ContentsFits, SendingFits, EntryFits, RowFits};
ghost use Rattle.tw_machine.specs.RowText.{row_text};

use tw_machine::rows_print_once;
use tw_types::{
    Body, Datagram, Decision, Kept, Pass, Reason, Row, RowAnswer, Seat, UpdateId, WireFault,
};

fn has_room(number: u64)
    ensures { HasRoom number }
{}

fn id_fits(id: &UpdateId)
    ensures { IdFits id.now }
{
    has_room(u64::from(id.who));
    has_room(id.incarnation);
    has_room(u64::from(id.seq));
}

fn bytes_fit(bytes: &[u8])
    ensures { AllByRecursion IsByte bytes.now }
{}

fn update_fits(kept: &Kept)
    ensures { UpdateFits (update_printed kept.now) }
{
    id_fits(&kept.entry.id);
    bytes_fit(&kept.payload);
    has_room(kept.entry.stamp);
}

fn pass_fits(pass: &Pass)
    ensures { PassFits (pass_printed pass.now) }
{
    update_fits(&pass.kept);
    has_room(pass.position);
}

fn wire_fits(fault: WireFault)
    ensures { WireFits fault }
{
    if let WireFault::Field(_place) = fault {}
}

fn reason_fits(reason: &Reason)
    ensures { ReasonFits reason.now }
{
    match reason {
        Reason::Wire(fault) => wire_fits(*fault),
        Reason::Late(number) | Reason::Promised(number) => has_room(*number),
        Reason::Missing(id) => id_fits(id),
        _ => (),
    }
}

fn answer_fits(answer: &RowAnswer)
    ensures { AnswerFits answer.now }
{
    match answer {
        RowAnswer::Sent(seq) => has_room(u64::from(*seq)),
        RowAnswer::Dropped(reason) => reason_fits(reason),
        _ => (),
    }
}

fn reading_fits(reading: Option<u64>)
    ensures { ReadingFits reading }
{
    if let Some(reading) = reading {
        has_room(reading);
    }
}

fn body_fits(body: &Body)
    ensures { ContentsFits (contents_of body.now) }
{
    match body {
        Body::Update(kept) => id_fits(&kept.entry.id),
        Body::Decision(decision) => {
            has_room(decision.group);
            has_room(decision.turn);
        }
        Body::NoDecision { number, .. }
        | Body::Election { number, .. }
        | Body::Promise { number, .. } => has_room(*number),
        Body::Ask(_) => (),
        Body::State { position, .. } => has_room(*position),
        Body::Sync { .. } => (),
    }
}

fn members_fit(seats: &[Seat])
    ensures { AllByRecursion MemberFits (map (λ s. s.member) seats.now) }
{
    for seat in seats {
        has_room(u64::from(seat.member.who));
        has_room(seat.member.incarnation);
    }
}

fn made_fits(made: &Option<Decision>)
    ensures { MadeFits (option_map made_printed made.now) }
{
    if let Some(made) = made {
        has_room(made.group);
        has_room(made.turn);
        has_room(made.start);
        has_room(made.low);
        has_room(made.window.len() as u64);
        members_fit(&made.seats);
    }
}

fn passes_fit(passes: &[Pass])
    ensures { AllByRecursion PassFits (map pass_printed passes.now) }
{
    for pass in passes {
        pass_fits(pass);
    }
}

fn earlies_fit(earlies: &[Kept])
    ensures { AllByRecursion UpdateFits (map update_printed earlies.now) }
{
    for kept in earlies {
        update_fits(kept);
    }
}

fn sends_fit(first: u32, sends: &[(u8, Datagram)])
    ensures { AllByRecursion SendingFits (sends_printed first sends.now) }
{
    let mut number = u64::from(first);
    for (to, datagram) in sends {
        has_room(number);
        has_room(u64::from(*to));
        body_fits(&datagram.body);
        number += 1;
    }
}

fn entries_fit(entries: &[(u32, u64)])
    ensures { AllByRecursion EntryFits (map entry_printed entries.now) }
{
    for (key, value) in entries {
        has_room(u64::from(*key));
        has_room(*value);
    }
}

fn row_fits(row: &Row)
    ensures { RowFits row.now }
{
    let line = &row.line;
    has_room(u64::from(line.step));
    has_room(u64::from(line.who));
    has_room(line.incarnation);
    reading_fits(line.reading);
    has_room(line.group);
    has_room(line.turn);
    has_room(line.length);
    has_room(line.passed);
    answer_fits(&line.answer);
    made_fits(&row.out.made);
    passes_fit(row.out.passes.as_slice());
    earlies_fit(row.out.earlies.as_slice());
    sends_fit(row.first, row.out.sends.as_slice());
    entries_fit(&row.entries);
}

/// Different rows have different texts: this function does nothing, and its contract states that.
pub fn texts_tell_rows_apart(a: &Row, b: &Row)
    ensures { row_text a.now ≡ row_text b.now → a.now ≡ b.now }
{
    row_fits(a);
    row_fits(b);
    rows_print_once();
}
