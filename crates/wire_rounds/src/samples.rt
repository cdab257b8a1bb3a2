//! Datagrams of each kind whose reading and writing is timed: a short one and a longest one.

use crate::page::Page;

/// A kind of datagram, and which of its two is meant.
#[derive(Clone, Copy)]
pub struct Sample {
    /// 1 to 8, as a datagram says it.
    pub kind: u8,
    /// The longest of its kind, of a team of fifteen, and not a short one, of a team of three.
    pub is_long: bool,
}

impl Sample {
    /// What it is called.
    pub fn name(self) -> &'static str {
        match self.kind {
            1 => "update",
            2 => "decision",
            3 => "no-decision",
            4 => "election",
            5 => "promise",
            6 => "ask",
            7 => "state",
            _ => "sync",
        }
    }

    pub fn size_name(self) -> &'static str {
        if self.is_long { "long" } else { "short" }
    }

    /// Its bytes.
    pub fn page(self) -> Page {
        let mut page = head(self.kind.into());
        match self.kind {
            1 => update(&mut page, self.is_long),
            2 => decision(&mut page, self.is_long),
            3 => no_decision(&mut page, self.is_long),
            4 => election(&mut page, self.is_long),
            5 => promise(&mut page, self.is_long),
            6 => ask(&mut page, self.is_long),
            7 => state(&mut page, self.is_long),
            _ => sync(&mut page, self.is_long),
        }
        page
    }
}

/// The head of a datagram of process 0 with an interval.
fn head(kind: u64) -> Page {
    let mut page = Page::new();
    page.put(1, 1);
    page.put(1, kind);
    page.put(4, 7);
    page.put(2, 1);
    page.put(8, 5);
    page.put(8, 0);
    page.put(1, 1);
    page.put(8, 900);
    page.put(8, 1_100);
    page.put(8, 0);
    page.put(8, 0);
    page
}

/// Bytes behind their number.
fn bytes(page: &mut Page, length: u16) {
    page.put(2, length.into());
    for i in 0..length {
        page.put(1, u64::from(i % 256));
    }
}

/// A timed update of process 2, with no payload or 128 bytes.
fn update(page: &mut Page, is_long: bool) {
    entry(page, 3);
    bytes(page, if is_long { 128 } else { 0 });
}

fn entry(page: &mut Page, seq: u64) {
    id(page, seq);
    page.put(1, 8);
    page.put(8, 900);
}

fn id(page: &mut Page, seq: u64) {
    page.put(1, 2);
    page.put(8, 5);
    page.put(4, seq);
}

/// A decision of two seats and no entry, or of fifteen seats and 32 entries.
fn decision(page: &mut Page, is_long: bool) {
    for number in [5, 7, 1_000, 2_000, 10, 950] {
        page.put(8, number);
    }
    page.put(1, 2);
    page.put(4, 3);
    let seats = if is_long { 15 } else { 2 };
    page.put(1, seats);
    for who in 0..seats {
        page.put(1, who);
        page.put(8, 5);
        page.put(4, 9);
        page.put(1, 1);
        page.put(8, 10);
        page.put(8, 1_000);
    }
    page.put(1, 1);
    let entries = if is_long { 32 } else { 0 };
    page.put(1, entries);
    for seq in 0..entries {
        entry(page, seq + 1);
    }
}

/// A report behind its member.
fn report(page: &mut Page, is_ready: bool) {
    page.put(1, is_ready.into());
    page.put(8, 5);
    page.put(8, 7);
    page.put(8, 12);
    page.put(1, 1);
    page.put(8, 900);
    page.put(8, 1_000);
}

/// One report and a short decision, or fifteen and a longest one.
fn no_decision(page: &mut Page, is_long: bool) {
    for number in [9, 5, 7] {
        page.put(8, number);
    }
    page.put(1, 2);
    let reports = if is_long { 15 } else { 1 };
    page.put(1, reports);
    for who in 0..reports {
        page.put(1, who);
        page.put(8, 5);
        report(page, false);
    }
    decision(page, is_long);
}

/// For a process that is stuck, or for one that joins. Both have one length.
fn election(page: &mut Page, is_long: bool) {
    page.put(8, 9);
    page.put(1, is_long.into());
    page.put(8, if is_long { 5 } else { 0 });
}

/// Of a process that is ready, or of one with a longest decision.
fn promise(page: &mut Page, is_long: bool) {
    page.put(8, 9);
    page.put(1, 0);
    page.put(8, 5);
    report(page, !is_long);
    page.put(1, is_long.into());
    if is_long {
        decision(page, true);
    }
}

/// For the application's content, or for an update.
fn ask(page: &mut Page, is_long: bool) {
    page.put(1, (!is_long).into());
    if is_long {
        id(page, 3);
    } else {
        page.put(8, 5);
    }
}

/// A piece of one byte, or of 1,024.
fn state(page: &mut Page, is_long: bool) {
    page.put(8, 5);
    page.put(8, 10);
    page.put(2, if is_long { 4_096 } else { 1 });
    page.put(2, 0);
    bytes(page, if is_long { 1_024 } else { 1 });
}

/// Of a process that isn't ready, or of one that is. Both have one length.
fn sync(page: &mut Page, is_long: bool) {
    page.put(1, is_long.into());
    for number in [5, 7, 12] {
        page.put(8, if is_long { number } else { 0 });
    }
}
