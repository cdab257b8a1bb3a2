//! Readers of updates and decisions, and their short texts.

ghost use Rattle.std.specs.Prelude.{◌≡◌, ◌<◌};
ghost use Rattle.std.specs.List.{AllByRecursion};
ghost use Rattle.tw_types.specs.declared.message.Seat.{Seat as SeatSeen};
ghost use Rattle.tw_types.specs.Ranges.{Ascends};

use arrayvec::ArrayVec;
use call_words::Words;
use std::alloc::{AllocError, Global};
use tw_types::{Decision, Entry, Kept, Member, Seat, Support};

/// The greatest position of a list.
pub const LAST_POSITION: u64 = (1 << 60) - 1;

/// The next words as an entry: its id, its order, its atomicity, its stamp, and whether it is late.
pub fn entry(words: &mut Words<'_>) -> Entry {
    Entry {
        id: words.id(),
        order: words.order(),
        atom: words.atom(),
        stamp: words.number(u64::MAX),
        late: words.yes(),
    }
}

/// The next words as an update: its entry, whether it was delivered early, and the one byte of its payload, or `-` for none.
pub fn kept(words: &mut Words<'_>) -> Kept {
    let entry = entry(words);
    let early = words.yes();
    let mut payload = ArrayVec::new();
    if let Some(byte) = words.maybe(u8::MAX.into()) {
        let _ = payload.try_push(byte as u8);
    }
    Kept {
        entry,
        early,
        payload,
    }
}

/// An entry in words, in the order in which they are read.
pub fn entry_text(alloc: Global, entry: &Entry) -> Result<String, AllocError> {
    let id = entry.id;
    format!(in alloc;
        "{} {} {} {:?} {:?} {} {}",
        id.who, id.incarnation, id.seq, entry.order, entry.atom, entry.stamp, entry.late
    )
}

/// An update in words, with all bytes of its payload.
pub fn kept_text(alloc: Global, kept: Option<&Kept>) -> Result<String, AllocError> {
    match kept {
        None => String::from_str(alloc, "none"),
        Some(kept) => {
            let entry = entry_text(alloc, &kept.entry)?;
            format!(in alloc; "{entry} {} {:?}", kept.early, kept.payload.as_slice())
        }
    }
}

/// The seats of the first processes of a team, all in one life.
#[derive(Clone, Copy)]
pub struct Seats {
    /// How many there are: none, three or five.
    count: u8,
    incarnation: u64,
    nexts: [u32; 5],
    acks: [Option<u64>; 5],
}

impl Seats {
    /// The next words as seats: how many, the incarnation of all, and of each the next number and the ack, or `-` for none.
    pub fn read(words: &mut Words<'_>) -> Seats {
        let count = words.byte(5);
        if count != 0 && count != 3 && count != 5 {
            words.are_wrong = true;
        }
        let mut seats = Seats {
            count,
            incarnation: words.number(u64::MAX),
            nexts: [0; 5],
            acks: [None; 5],
        };
        for who in 0..usize::from(count) {
            seats.nexts[who] = words.seq();
            seats.acks[who] = words.maybe(u64::MAX);
        }
        seats
    }

    fn seat(&self, who: u8) -> Seat
        requires { who < 5 }
        ensures { result.member.who ≡ who }
    {
        Seat {
            member: Member {
                who,
                incarnation: self.incarnation,
            },
            next: self.nexts[usize::from(who)],
            support: self.acks[usize::from(who)].map(|ack| Support { ack, at: 0 }),
        }
    }

    fn three(&self) -> ArrayVec<Seat, 15>
        ensures ascending { Ascends result.items }
        ensures below { AllByRecursion (λ (s : SeatSeen). s.member.who < 5) result.items }
    {
        let mut seats = ArrayVec::new();
        seats.push(self.seat(0));
        seats.push(self.seat(1));
        seats.push(self.seat(2));
        seats
    }

    fn five(&self) -> ArrayVec<Seat, 15>
        ensures ascending { Ascends result.items }
        ensures below { AllByRecursion (λ (s : SeatSeen). s.member.who < 5) result.items }
    {
        let mut seats = ArrayVec::new();
        seats.push(self.seat(0));
        seats.push(self.seat(1));
        seats.push(self.seat(2));
        seats.push(self.seat(3));
        seats.push(self.seat(4));
        seats
    }

    fn seats(&self) -> ArrayVec<Seat, 15>
        ensures ascending { Ascends result.items }
        ensures below { AllByRecursion (λ (s : SeatSeen). s.member.who < 5) result.items }
    {
        match self.count {
            3 => self.three(),
            5 => self.five(),
            _ => ArrayVec::new(),
        }
    }

    /// A decision with these seats, whose empty window is at this position.
    pub fn decision(&self, low: u64) -> Decision
        ensures ascending { Ascends result.seats.items }
        ensures below { AllByRecursion (λ (s : SeatSeen). s.member.who < 5) result.seats.items }
    {
        Decision {
            low,
            seats: self.seats(),
            ..Decision::default()
        }
    }
}
