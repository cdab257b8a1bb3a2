//! Datagrams as bytes, field by field, with values at random that are allowed.

ghost use Rattle.std.specs.Prelude.{◌≤◌};

use crate::draw::Draw;
use crate::page::Page;

/// A group and a turn.
#[derive(Clone, Copy, PartialEq, Eq, PartialOrd, Ord)]
struct Turn {
    group: u64,
    turn: u64,
}

/// What a seat of a decision may hold.
#[derive(Clone, Copy)]
struct Bounds {
    made: u64,
    end: u64,
}

/// Makes one datagram after the other.
#[derive(Drop)]
pub struct Maker {
    /// The size of the team whose datagram is made.
    n: u8,
    pub draw: Draw,
    pub page: Page,
}

impl Maker {
    pub fn new(seed: u64) -> Maker {
        Maker {
            n: 3,
            draw: Draw::new(seed),
            page: Page::new(),
        }
    }

    /// Makes a datagram of any kind, and answers the size of its team.
    pub fn next(&mut self) -> u8
        ensures least { 3 ≤ result }
        ensures most { result ≤ 15 }
    {
        let n = 3 + self.draw.below(13) as u8;
        self.n = n;
        self.page.end = 0;
        let kind = 1 + self.draw.below(8);
        let from = self.process();
        let incarnation = self.draw.count();
        self.head(kind, from, incarnation);
        match kind {
            1 => self.update(),
            2 => self.any_decision(),
            3 => self.no_decision(),
            4 => self.election(),
            5 => self.promise(from, incarnation),
            6 => self.ask(),
            7 => self.state(),
            _ => self.sync(),
        }
        n
    }

    fn process(&mut self) -> u64 {
        self.draw.below(self.n.into())
    }

    fn put(&mut self, size: usize, number: u64) {
        self.page.put(size, number);
    }

    fn put_count(&mut self) {
        let count = self.draw.count();
        self.put(8, count);
    }

    fn put_process(&mut self) {
        let process = self.process();
        self.put(1, process);
    }

    /// A number of four bytes that isn't 0.
    fn put_seq(&mut self) {
        let seq = 1 + self.draw.below(2_147_483_647);
        self.put(4, seq);
    }

    fn put_positive(&mut self) {
        let count = 1 + self.draw.below(1_000_000);
        self.put(8, count);
    }

    fn put_bytes(&mut self, length: u64) {
        self.put(2, length);
        for _ in 0..length {
            let byte = self.draw.below(256);
            self.put(1, byte);
        }
    }

    /// So many counts, or so many zeros.
    fn put_if(&mut self, present: bool, fields: u8) {
        for _ in 0..fields {
            if present {
                self.put_count();
            } else {
                self.put(8, 0);
            }
        }
    }

    fn head(&mut self, kind: u64, from: u64, incarnation: u64) {
        self.put(1, 1);
        self.put(1, kind);
        self.put(4, 7);
        self.put(1, from);
        let to = self.draw.below(256);
        self.put(1, to);
        self.put(8, incarnation);
        self.put_count();
        let flags = self.draw.below(4);
        self.put(1, flags);
        let lo = self.draw.count();
        let hi = lo.saturating_add(self.draw.below(1_000));
        let has_interval = flags % 2 == 1;
        self.put(8, if has_interval { lo } else { 0 });
        self.put(8, if has_interval { hi } else { 0 });
        self.put_if(flags >= 2, 2);
    }

    fn id(&mut self) {
        self.put_process();
        self.put_count();
        self.put_seq();
    }

    fn entry(&mut self, may_be_late: bool) {
        self.id();
        let order = self.draw.below(3);
        let atom = self.draw.below(3);
        let is_late = may_be_late && order == 2 && self.draw.below(2) == 1;
        let class = (3 * order).saturating_add(atom);
        self.put(
            1,
            if is_late {
                class.saturating_add(16)
            } else {
                class
            },
        );
        self.put_count();
    }

    fn update(&mut self) {
        self.entry(false);
        let length = self.draw.below(129);
        self.put_bytes(length);
    }

    fn any_decision(&mut self) {
        let group = 1 + self.draw.below(1_000_000);
        let turn = self.draw.count();
        self.decision(Turn { group, turn });
    }

    fn seat(&mut self, who: u64, is_maker: bool, bounds: Bounds) {
        self.put(1, who);
        self.put_count();
        self.put_seq();
        let ack = self.draw.below(bounds.end.saturating_add(1));
        let at = self.draw.count();
        let present = is_maker || self.draw.below(2) == 1;
        let at = if is_maker { bounds.made } else { at };
        self.put(1, present.into());
        self.put(8, if present { ack } else { 0 });
        self.put(8, if present { at } else { 0 });
    }

    /// So many seats, ascending by process. Answers the process of the one with this index.
    fn seats(&mut self, count: u64, maker_index: u64, bounds: Bounds) -> u64 {
        let n = u64::from(self.n);
        let mut left = count;
        let mut maker = 0;
        for who in 0..n {
            if self.draw.below(n - who) < left {
                let is_maker = count.saturating_sub(left) == maker_index;
                self.seat(who, is_maker, bounds);
                maker = if is_maker { who } else { maker };
                left = left.saturating_sub(1);
            }
        }
        maker
    }

    fn decision(&mut self, of: Turn) {
        self.put(8, of.group);
        self.put(8, of.turn);
        let made = self.draw.count();
        self.put(8, made);
        self.put_count();
        let low = self.draw.below(1_000_000_000);
        self.put(8, low);
        self.put_count();
        self.put_process();
        self.put_seq();
        let n = u64::from(self.n);
        let majority = n / 2 + 1;
        let spare = self
            .draw
            .below(n.saturating_sub(majority).saturating_add(1));
        let count = majority.saturating_add(spare);
        let entries = self.draw.below(33);
        let maker_index = self.draw.below(count);
        self.put(1, count);
        let end = low.saturating_add(entries);
        let maker = self.seats(count, maker_index, Bounds { made, end });
        self.put(1, maker);
        self.put(1, entries);
        for _ in 0..entries {
            self.entry(true);
        }
    }

    fn report(&mut self, is_ready: bool, of: Turn) {
        self.put(1, is_ready.into());
        self.put(8, of.group);
        self.put(8, of.turn);
        self.put_count();
        let present = self.draw.below(2) == 1;
        self.put(1, present.into());
        self.put_if(present, 1);
        self.put_count();
    }

    fn promise(&mut self, from: u64, incarnation: u64) {
        let number = 1 + self.draw.below(1_000_000);
        let is_ready = self.draw.below(3) == 0;
        let any = self.draw.count();
        let below = self.draw.below(number);
        let turn = self.draw.count();
        let group = if is_ready { any } else { below };
        self.put(8, number);
        self.put(1, from);
        self.put(8, incarnation);
        self.report(is_ready, Turn { group, turn });
        let present = !is_ready && group >= 1;
        self.put(1, present.into());
        if present {
            self.decision(Turn { group, turn });
        }
    }

    /// So many reports, of different processes. Answers the greatest group and turn.
    fn reports(&mut self, count: u64, number: u64) -> Turn {
        let n = u64::from(self.n);
        let mut left = count;
        let mut best = Turn { group: 0, turn: 0 };
        for who in 0..n {
            if self.draw.below(n - who) < left {
                self.put(1, who);
                self.put_count();
                let group = self.draw.below(number.saturating_sub(1)).saturating_add(1);
                let turn = self.draw.below(4);
                self.report(false, Turn { group, turn });
                best = best.max(Turn { group, turn });
                left = left.saturating_sub(1);
            }
        }
        best
    }

    fn no_decision(&mut self) {
        let number = 2 + self.draw.below(8);
        self.put(8, number);
        self.put_positive();
        self.put_count();
        self.put_process();
        let count = 1 + self.draw.below(self.n.into());
        self.put(1, count);
        let best = self.reports(count, number);
        self.decision(best);
    }

    fn election(&mut self) {
        self.put_positive();
        let is_join = self.draw.below(2) == 1;
        self.put(1, is_join.into());
        if is_join {
            self.put_positive();
        } else {
            self.put(8, 0);
        }
    }

    fn ask(&mut self) {
        let is_table = self.draw.below(2) == 1;
        self.put(1, is_table.into());
        if is_table {
            self.put_positive();
        } else {
            self.id();
        }
    }

    fn state(&mut self) {
        self.put_positive();
        self.put_count();
        let total = 1 + self.draw.below(4_096);
        let pieces = total.saturating_add(1_023) / 1_024;
        let offset = self.draw.below(pieces).saturating_mul(1_024);
        self.put(2, total);
        self.put(2, offset);
        self.put_bytes(total.saturating_sub(offset).min(1_024));
    }

    fn sync(&mut self) {
        let is_ready = self.draw.below(2) == 1;
        self.put(1, is_ready.into());
        self.put_if(is_ready, 3);
    }
}
