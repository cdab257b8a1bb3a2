//! The bytes of datagrams, spelled field by field. A field is the number of its bytes and its value.

ghost use Rattle.std.specs.Prelude.{IfOk};
ghost use Rattle.node_core.specs.Events.{IsGivable};

use call_words::{LAST, Words};
use node_core::Event;
use std::alloc::{AllocError, Global};
use tw_num::Interval;

/// The life of all processes that decisions speak of.
const LIFE: u64 = 699_990;

/// The bytes that the words of the last call spell.
#[derive(Drop)]
pub struct Spelled {
    bytes: Vec<u8>,
}

/// The next word as a field of a datagram: how often it comes, how many bytes it has, and its number. The word `8:12` names one
/// field of eight bytes, and `25*1:0` is 25 of one byte.
fn field(words: &mut Words<'_>) -> (u64, usize, u64) {
    let word = words.word();
    let (count, field) = word.split_once('*').unwrap_or(("1", word));
    let (size, number) = field.split_once(':').unwrap_or(("", field));
    let count = words.number_of(count, 4096);
    let size = words.number_of(size, 8) as usize;
    (count, size, words.number_of(number, u64::MAX))
}

/// The next two words as numbers, or the next one, `-`, for none.
fn pair(words: &mut Words<'_>) -> Option<(u64, u64)> {
    let first = words.maybe(u64::MAX)?;
    Some((first, words.number(u64::MAX)))
}

impl Spelled {
    pub fn new(alloc: Global) -> Spelled {
        Spelled {
            bytes: Vec::new(alloc),
        }
    }

    /// Puts fields behind the bytes, the highest byte of each first.
    fn fields(&mut self, fields: &[(usize, u64)]) -> Result<(), AllocError> {
        for (size, number) in fields {
            let bytes = number.to_be_bytes();
            self.bytes
                .extend_from_slice(&bytes[8usize.saturating_sub(*size)..])?;
        }
        Ok(())
    }

    fn repeated(&mut self, count: u64, size: usize, number: u64) -> Result<(), AllocError> {
        for _ in 0..count {
            self.fields(&[(size, number)])?;
        }
        Ok(())
    }

    /// Puts the fields that all further words name.
    fn rest(&mut self, words: &mut Words<'_>) -> Result<(), AllocError> {
        for _ in 0..u64::MAX {
            if words.have_ended() {
                break;
            }
            let (count, size, number) = field(words);
            self.repeated(count, size, number)?;
        }
        Ok(())
    }

    /// Begins a datagram of this kind from a process that started at 5. It tells of an interval of team time, or of none, and of a
    /// datagram that was heard, or of none.
    fn head(
        &mut self,
        kind: u64,
        from: u64,
        to: u64,
        sent: u64,
        interval: Option<(u64, u64)>,
        echo: Option<(u64, u64)>,
    ) -> Result<(), AllocError> {
        self.bytes.clear();
        let flags = u64::from(interval.is_some()) + 2 * u64::from(echo.is_some());
        let (lo, hi) = interval.unwrap_or((0, 0));
        let (a, b) = echo.unwrap_or((0, 0));
        self.fields(&[(1, 1), (1, kind), (4, 7), (1, from), (1, to)])?;
        self.fields(&[(8, 5), (8, sent), (1, flags)])?;
        self.fields(&[(8, lo), (8, hi), (8, a), (8, b)])
    }

    /// Any datagram: its kind, sender and receiver, when it was sent, its interval and echo, and the fields of its body.
    fn packet(&mut self, words: &mut Words<'_>) -> Result<(), AllocError> {
        let kind = words.number(255);
        let from = words.number(255);
        let to = words.number(255);
        let sent = words.number(u64::MAX);
        let interval = pair(words);
        let echo = pair(words);
        self.head(kind, from, to, sent, interval, echo)?;
        self.rest(words)
    }

    /// Such a datagram, behind the place of the byte that is made 255.
    fn altered(&mut self, words: &mut Words<'_>) -> Result<(), AllocError> {
        let place = usize::from(words.byte(255));
        self.packet(words)?;
        match self.bytes.get_mut(place) {
            Some(byte) => *byte = 255,
            None => words.are_wrong = true,
        }
        Ok(())
    }

    /// The election of a process that is stuck: its sender and receiver, its number, and what it tells of team time.
    fn election(&mut self, words: &mut Words<'_>) -> Result<(), AllocError> {
        let from = words.number(255);
        let to = words.number(255);
        let number = words.number(u64::MAX);
        let told = words.maybe(u64::MAX);
        self.head(4, from, to, 10, told.map(|time| (time, time)), None)?;
        self.fields(&[(8, number), (1, 0), (8, 0)])
    }

    /// An update, stamped with its number: its id and class.
    fn entry(&mut self, words: &mut Words<'_>) -> Result<(), AllocError> {
        let id = words.id();
        let class = words.number(255);
        let seq = id.seq.into();
        self.fields(&[(1, id.who.into()), (8, id.incarnation), (4, seq)])?;
        self.fields(&[(1, class), (8, seq)])
    }

    /// An update of one byte that process 1 sends to process 0.
    fn update(&mut self, words: &mut Words<'_>) -> Result<(), AllocError> {
        self.head(1, 1, 0, 10, None, None)?;
        self.entry(words)?;
        self.fields(&[(1, 0), (1, 1), (1, 9)])
    }

    /// The question of process 2 to process 0 for an update of this id.
    fn ask(&mut self, words: &mut Words<'_>) -> Result<(), AllocError> {
        let id = words.id();
        self.head(6, 2, 0, 10, None, None)?;
        self.fields(&[(1, 0), (1, id.who.into())])?;
        self.fields(&[(8, id.incarnation), (4, id.seq.into())])
    }

    /// The seats of all processes. Each awaits the number `next`, with the support of this moment, and acknowledged nothing.
    fn seats(&mut self, next: u64, made: u64) -> Result<(), AllocError> {
        self.fields(&[(1, 3)])?;
        for who in 0..3 {
            self.fields(&[(1, who), (8, LIFE), (4, next), (1, 1), (8, 0), (8, made)])?;
        }
        Ok(())
    }

    /// A decision of group 7 that is sent to process 0: its turn and maker, when it was made, the first position of its window, the
    /// number that each seat awaits, how many updates it has, and each of them.
    fn decision(&mut self, words: &mut Words<'_>) -> Result<(), AllocError> {
        let turn = words.number(255);
        let maker = words.number(255);
        let made = words.number(u64::MAX);
        let low = words.number(u64::MAX);
        let next = words.number(u32::MAX.into());
        let count = words.number(255);
        self.head(2, maker, 0, 10, Some((made, made)), None)?;
        self.fields(&[(8, 7), (8, turn), (8, made), (8, 701_001), (8, low)])?;
        self.fields(&[(8, 0), (1, 0), (4, 0)])?;
        self.seats(next, made)?;
        self.fields(&[(1, maker), (1, count)])?;
        for _ in 0..count {
            self.entry(words)?;
        }
        Ok(())
    }

    /// Spells the datagram at this place among the words of calls.
    fn spell(&mut self, place: usize, words: &mut Words<'_>) -> Result<(), AllocError> {
        match place {
            12 => self.packet(words),
            13 => self.altered(words),
            14 => self.election(words),
            15 => self.update(words),
            16 => self.ask(words),
            17 => self.decision(words),
            _ => Ok(()),
        }
    }

    /// The event at this place there. The words say of which interval it tells, or what its datagram has.
    pub fn event(&mut self, place: usize, words: &mut Words<'_>) -> Result<Event<'_>, AllocError>
        ensures { IfOk result IsGivable }
    {
        match place {
            10 => Ok(Event::Tick),
            11 => {
                let Interval { lo, hi } = words.interval(LAST);
                Ok(Event::Reference { lo, hi })
            }
            _ => {
                self.spell(place, words)?;
                Ok(Event::Packet(&self.bytes))
            }
        }
    }

    /// The bytes of the fields that all further words name.
    pub fn payload(&mut self, words: &mut Words<'_>) -> Result<&[u8], AllocError> {
        self.bytes.clear();
        self.rest(words)?;
        Ok(&self.bytes)
    }
}
