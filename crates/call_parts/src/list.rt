//! Calls of `oal`.

ghost use Rattle.std.specs.Prelude.{◌<◌, ◌^◌};

use crate::updates::{kept, kept_text};
use arrayvec::ArrayVec;
use call_words::{Words, shown};
use oal::{ExtendFault, Oal};
use std::alloc::{AllocError, Global};
use tw_types::{Decision, Entry, Kept, Payloads, UpdateId};

/// The greatest position at which a list begins anew.
const LATEST: u64 = (1 << 61) - 1;

/// Updates whose payloads are there.
#[derive(Drop)]
struct Given {
    updates: Vec<Kept>,
}

impl Payloads for Given {
    ghost payloads = { λ given. given.updates.items };

    fn find(&self, id: &UpdateId) -> Option<&Kept> {
        self.updates.iter().find(|kept| kept.entry.id == *id)
    }
}

/// The update of the list at this position: its number is one above, its payload the position.
fn update(position: u8) -> Kept {
    let mut payload = ArrayVec::new();
    payload.push(position);
    Kept {
        entry: Entry {
            id: UpdateId {
                who: 1,
                incarnation: 5,
                seq: u32::from(position) + 1,
            },
            ..Entry::default()
        },
        early: false,
        payload,
    }
}

/// A decision whose window begins at the first of these positions, and has the updates of all up to the second one.
/// Where a third one is told, the entry there is late.
fn decision(words: &mut Words<'_>) -> Decision
    ensures { result.low < 2 ^ 61 }
{
    let low = words.byte(u8::MAX);
    let end = words.byte(u8::MAX);
    let late = words.maybe(u8::MAX.into());
    let mut d = Decision {
        low: low.into(),
        ..Decision::default()
    };
    fill(&mut d.window, low, end, late);
    d
}

/// Puts the entries of these positions into a window.
fn fill(window: &mut ArrayVec<Entry, 32>, low: u8, end: u8, late: Option<u64>) {
    for position in low..end {
        let mut entry = update(position).entry;
        entry.late = late == Some(position.into());
        let _ = window.try_push(entry);
    }
}

/// The list that the last `new` made, and the payloads that were given since then.
#[derive(Drop)]
pub struct Lists {
    oal: Oal,
    given: Given,
}

impl Lists {
    pub fn new(alloc: Global) -> Result<Lists, AllocError> {
        let given = Given {
            updates: Vec::new(alloc),
        };
        match Oal::new(alloc) {
            Ok(oal) => Ok(Lists { oal, given }),
            Err(_) => Err(AllocError),
        }
    }

    pub fn oal(&self) -> &Oal {
        &self.oal
    }

    /// A decision whose window begins at position 0 and has all updates that are given.
    fn all_given(&self) -> Decision
        ensures { result.low < 2 ^ 61 }
    {
        let mut window = ArrayVec::new();
        for kept in self.given.updates.iter() {
            let _ = window.try_push(kept.entry);
        }
        Decision {
            window,
            ..Decision::default()
        }
    }

    /// Takes a decision that fits, where it is to be taken.
    fn fit(&mut self, d: &Decision, is_taken: bool) -> Result<(), ExtendFault>
        requires { d.now.low < 2 ^ 61 }
    {
        self.oal.fits(d, &self.given)?;
        if is_taken {
            self.oal.extend(d, &self.given);
        }
        Ok(())
    }

    /// Passes the next position.
    fn pass(&mut self, words: &mut Words<'_>) {
        if self.oal.passed() < self.oal.length() {
            self.oal.pass();
        } else {
            words.are_wrong = true;
        }
    }

    /// What stands at a position: nothing, the position's update, or another one.
    fn stands(&self, position: u8) -> &'static str {
        match self.oal.at(position.into()) {
            None => "nothing",
            Some(kept) if *kept == update(position) => "update",
            Some(_) => "other",
        }
    }

    /// Whether the word says of each of these positions what stands there.
    fn all_stand(&self, low: u8, last: u8, word: &str) -> bool {
        for position in low..=last {
            if self.stands(position) != word {
                return false;
            }
        }
        true
    }

    /// Gives the payloads of the updates of these positions.
    fn give(&mut self, low: u8, end: u8) -> Result<(), AllocError> {
        for position in low..end {
            self.given.updates.push(update(position))?;
        }
        Ok(())
    }

    fn renew(&mut self, alloc: Global) -> Result<(), AllocError> {
        *self = Lists::new(alloc)?;
        Ok(())
    }

    /// Gives the payload of the next words' update.
    fn give_update(&mut self, words: &mut Words<'_>) -> Result<(), AllocError> {
        self.given.updates.push(kept(words))?;
        Ok(())
    }

    /// Changes what there is by the call at this place among those of `call`.
    fn change(
        &mut self,
        alloc: Global,
        place: usize,
        words: &mut Words<'_>,
    ) -> Result<(), AllocError> {
        match place {
            5 => return self.renew(alloc),
            6 => self.given.updates.clear(),
            7 => {
                let low = words.byte(u8::MAX);
                let end = words.byte(u8::MAX);
                return self.give(low, end);
            }
            8 => return self.give_update(words),
            9 => self.pass(words),
            10 => self.oal.mark_early(words.number(LATEST)),
            11 => self.oal.restart(words.number(LATEST)),
            _ => {}
        }
        Ok(())
    }

    /// `fits` and `take`, each with a decision, and `take-given`, whose decision has all that is given; `at` with a position; and
    /// `all` with the first and the last of some positions, and what is to stand there. The others change what there is: `new`;
    /// `forget`, after which no payload is given, `give` with two positions, which gives the payloads from the first up to the
    /// second, and `give-update` with an update; `pass`; `mark-early` and `restart`, each with a position.
    pub fn call(&mut self, alloc: Global, words: &mut Words<'_>) -> Result<String, AllocError> {
        let calls = [
            "fits",
            "take",
            "take-given",
            "at",
            "all",
            "new",
            "forget",
            "give",
            "give-update",
            "pass",
            "mark-early",
            "restart",
        ];
        match words.among(&calls) {
            0 => shown(alloc, &self.fit(&decision(words), false)),
            1 => shown(alloc, &self.fit(&decision(words), true)),
            2 => shown(alloc, &self.fit(&self.all_given(), true)),
            3 => kept_text(alloc, self.oal.at(words.number(u64::MAX))),
            4 => {
                let low = words.byte(u8::MAX);
                let last = words.byte(u8::MAX);
                shown(alloc, &self.all_stand(low, last, words.word()))
            }
            place => {
                self.change(alloc, place, words)?;
                Ok(String::new(alloc))
            }
        }
    }
}
