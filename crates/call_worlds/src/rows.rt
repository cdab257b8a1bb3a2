//! Calls of `schedule_text` that write rows.

use arrayvec::ArrayVec;
use call_words::{LAST, Words};
use schedule_text::write_row;
use std::alloc::{AllocError, Global};
use tw_io::BytesOut;
use tw_types::{
    Body, Datagram, Decision, Entry, Head, How, Kept, Listed, Member, Pass, ProposeFault, Reason,
    Report, Row, RowAnswer, RowLine, Seat, Want, Why, WireFault,
};

/// A head of which no row says anything.
const HEAD: Head = Head {
    from: 1,
    to: 0,
    incarnation: 699_990,
    sent: 714_000,
    interval: None,
    echo: None,
};

/// What a sink with room for so many bytes has of a row, whose call of this number fails, and whether the writing failed.
pub fn text(alloc: Global, row: &Row, room: u16, failing: u64) -> Result<String, AllocError> {
    match BytesOut::new(alloc, usize::from(room), &[failing]) {
        Ok(mut sink) => {
            let is_written = write_row(row, &mut sink).is_ok();
            let end = if is_written { "" } else { ", and failed" };
            let text = str::from_utf8(sink.bytes()).unwrap_or("");
            format!(in alloc; "{text:?}{end}")
        }
        Err(_) => Err(AllocError),
    }
}

fn fault(words: &mut Words<'_>) -> WireFault {
    match words.among(&["Short", "Long", "Version", "Line", "Kind", "Field"]) {
        1 => WireFault::Long,
        2 => WireFault::Version,
        3 => WireFault::Line,
        4 => WireFault::Kind,
        5 => WireFault::Field(words.number(u16::MAX.into()) as u16),
        _ => WireFault::Short,
    }
}

fn reason(words: &mut Words<'_>) -> Reason {
    let names = [
        "Wire",
        "Stranger",
        "Disjoint",
        "Unrated",
        "Late",
        "Unsynced",
        "Old",
        "NotMember",
        "Promised",
        "Quarantine",
        "OutOfWindow",
        "Unwilling",
        "Gap",
        "Behind",
        "Missing",
        "Foreign",
        "NotHeld",
    ];
    match words.among(&names) {
        0 => Reason::Wire(fault(words)),
        1 => Reason::Stranger,
        2 => Reason::Disjoint,
        3 => Reason::Unrated,
        4 => Reason::Late(words.number(u64::MAX)),
        5 => Reason::Unsynced,
        7 => Reason::NotMember,
        8 => Reason::Promised(words.number(u64::MAX)),
        9 => Reason::Quarantine,
        10 => Reason::OutOfWindow,
        11 => Reason::Unwilling,
        12 => Reason::Gap,
        13 => Reason::Behind,
        14 => Reason::Missing(words.id()),
        15 => Reason::Foreign,
        16 => Reason::NotHeld,
        _ => Reason::Old,
    }
}

fn refusal(words: &mut Words<'_>) -> ProposeFault {
    match words.among(&["TooLong", "NotUpToDate", "Full", "Spent"]) {
        0 => ProposeFault::TooLong,
        1 => ProposeFault::NotUpToDate,
        3 => ProposeFault::Spent,
        _ => ProposeFault::Full,
    }
}

fn answer(words: &mut Words<'_>) -> RowAnswer {
    let names = [
        "Start", "Crash", "Look", "Done", "Sent", "Refused", "Dropped",
    ];
    match words.among(&names) {
        0 => RowAnswer::Start,
        1 => RowAnswer::Crash,
        2 => RowAnswer::Look,
        4 => RowAnswer::Sent(words.seq()),
        5 => RowAnswer::Refused(refusal(words)),
        6 => RowAnswer::Dropped(reason(words)),
        _ => RowAnswer::Done,
    }
}

fn how(words: &mut Words<'_>) -> How {
    match words.among(&["Now", "Earlier", "Late"]) {
        1 => How::Earlier,
        2 => How::Late,
        _ => How::Now,
    }
}

/// The next words as an update: its id, order, atomicity and stamp, the count of its bytes and those.
fn kept(words: &mut Words<'_>) -> Kept {
    let entry = Entry {
        id: words.id(),
        order: words.order(),
        atom: words.atom(),
        stamp: words.number(u64::MAX),
        late: false,
    };
    let mut payload = ArrayVec::new();
    for _ in 0..words.byte(128) {
        let _ = payload.try_push(words.byte(u8::MAX));
    }
    Kept {
        entry,
        early: false,
        payload,
    }
}

/// The next two words as a decision's group and turn.
fn decision(words: &mut Words<'_>) -> Decision {
    Decision {
        group: words.number(u64::MAX),
        turn: words.number(u64::MAX),
        ..Decision::default()
    }
}

/// The next words as the body of a datagram: its kind, and what a row says of it.
fn body(words: &mut Words<'_>) -> Body {
    let kinds = [
        "Update",
        "Decision",
        "NoDecision",
        "Election",
        "Promise",
        "Ask",
        "State",
        "Sync",
    ];
    match words.among(&kinds) {
        0 => Body::Update(kept(words)),
        1 => Body::Decision(decision(words)),
        2 => Body::NoDecision {
            number: words.number(u64::MAX),
            group: 7,
            turn: 1,
            skip: 0,
            reports: ArrayVec::new(),
            best: Decision::default(),
        },
        3 => Body::Election {
            number: words.number(u64::MAX),
            why: Why::Stuck,
        },
        4 => Body::Promise {
            number: words.number(u64::MAX),
            report: Report::default(),
            decision: None,
        },
        5 => Body::Ask(Want::Table(7)),
        6 => Body::State {
            group: 7,
            position: words.number(u64::MAX),
            total: 14,
            offset: 0,
            bytes: ArrayVec::new(),
        },
        _ => Body::Sync { ready: None },
    }
}

/// The next words as a row's first line, of an event that was taken.
fn line(words: &mut Words<'_>) -> RowLine {
    RowLine {
        step: words.seq(),
        who: words.byte(u8::MAX),
        incarnation: words.number(u64::MAX),
        reading: words.maybe(u64::MAX),
        up: words.yes(),
        group: words.number(u64::MAX),
        turn: words.number(u64::MAX),
        length: words.number(u64::MAX),
        passed: words.number(u64::MAX),
        answer: RowAnswer::Done,
    }
}

/// Adds an item to a list that has room.
fn add<T: Drop, const N: usize>(list: &mut Listed<T, N>, item: T) {
    if list.as_slice().len() < N {
        list.push(item);
    }
}

/// The next words as a process's seat.
fn seat(words: &mut Words<'_>) -> Seat {
    let member = Member {
        who: words.byte(u8::MAX),
        incarnation: words.number(u64::MAX),
    };
    Seat {
        member,
        ..Seat::default()
    }
}

/// Adds what the call at this place among those of `call` says to the decision that a row's step made.
fn put_made(made: &mut Decision, place: usize, words: &mut Words<'_>) {
    match place {
        9 => made.start = words.number(u64::MAX),
        10 => made.low = words.number(u64::MAX),
        11 => {
            let _ = made.window.try_push(Entry::default());
        }
        12 => {
            let _ = made.seats.try_push(seat(words));
        }
        _ => {}
    }
}

/// The next words as a position that was passed.
fn pass(words: &mut Words<'_>) -> Pass {
    Pass {
        position: words.number(u64::MAX),
        how: how(words),
        kept: kept(words),
    }
}

/// Adds what that call says to a row.
fn put(row: &mut Row, place: usize, words: &mut Words<'_>) {
    match place {
        2 => row.line.answer = answer(words),
        3 => row.out.made = Some(decision(words)),
        4 => add(&mut row.out.passes, pass(words)),
        5 => add(&mut row.out.earlies, kept(words)),
        6 => row.first = words.seq(),
        7 => {
            let to = words.byte(u8::MAX);
            let body = body(words);
            add(&mut row.out.sends, (to, Datagram { head: HEAD, body }));
        }
        8 => {
            let _ = row.entries.try_push((words.seq(), words.number(u64::MAX)));
        }
        _ => match &mut row.out.made {
            Some(made) => put_made(made, place, words),
            None => words.are_wrong = true,
        },
    }
}

/// A row of nothing.
pub fn blank(alloc: Global) -> Result<Row, AllocError> {
    Row::new(alloc).or(Err(AllocError))
}

/// `line` makes the row, and `text` gives what a sink has of it; the others add to it, the last four to the decision that its step
/// made.
pub fn call(row: &mut Row, alloc: Global, words: &mut Words<'_>) -> Result<String, AllocError> {
    let calls = [
        "line", "text", "answer", "made", "pass", "early", "first", "send", "entry", "start",
        "low", "listed", "member",
    ];
    match words.among(&calls) {
        0 => {
            *row = blank(alloc)?;
            row.line = line(words);
        }
        1 => {
            let room = words.number(u16::MAX.into()) as u16;
            let failing = words.number(LAST);
            return text(alloc, row, room, failing);
        }
        place => put(row, place, words),
    }
    Ok(String::new(alloc))
}
