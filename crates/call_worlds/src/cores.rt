//! Calls of `node_core`.

mod datagrams;
mod given;

ghost use Rattle.std.specs.Prelude.{◌<◌, ◌^◌};

use app_table::Table;
use call_words::{LAST, Words, shown};
use datagrams::Spelled;
use given::{asks, earlies, fault_name, gives, passes};
use node_core::Core;
use std::alloc::{AllocError, Global};
use std::mem::size_of;
use tw_types::{Kept, Mode, Outputs, Team};

/// The process that the last `new` made, and what its last step gave.
#[derive(Drop)]
pub struct Cores {
    core: Core<Table>,
    out: Outputs,
    spelled: Spelled,
}

/// A process of the team of three, started at `h`.
fn process(alloc: Global, who: u8, mode: Mode, h: u64) -> Result<Core<Table>, AllocError>
    requires who { who < 3 }
    requires reading { h < 2 ^ 60 }
{
    match Table::new(alloc) {
        Ok(table) => Core::new(alloc, Team::OF_THREE, who, mode, h, table).or(Err(AllocError)),
        Err(_) => Err(AllocError),
    }
}

/// Whether a core and the room that it takes where it is made, for the updates that wait, for the payloads of a held decision, of
/// which there are two sets, and for the end of the list, are below 200 KB together.
fn is_small() -> bool {
    size_of::<(Core<Table>, [Kept; 120], [[Kept; 32]; 2], [Kept; 64])>() < 200_000
}

impl Cores {
    pub fn new(alloc: Global) -> Result<Cores, AllocError> {
        match (process(alloc, 0, Mode::First, 0), Outputs::new(alloc)) {
            (Ok(core), Ok(out)) => Ok(Cores {
                core,
                out,
                spelled: Spelled::new(alloc),
            }),
            _ => Err(AllocError),
        }
    }

    /// What a process is, does, and says of itself; `sends` to `earlies` are of the last step. The others are events.
    pub fn call(&mut self, alloc: Global, words: &mut Words<'_>) -> Result<String, AllocError> {
        let calls = [
            "new",
            "send",
            "sends",
            "asks",
            "gives",
            "passes",
            "earlies",
            "entries",
            "small",
            "look",
            "tick",
            "reference",
            "packet",
            "altered",
            "election",
            "update",
            "ask",
            "decision",
        ];
        match words.among(&calls) {
            0 => self.start(alloc, words),
            1 => self.send(alloc, words),
            2 => shown(alloc, &self.out.sends.as_slice()),
            3 => asks(alloc, &self.out),
            4 => gives(alloc, &self.out),
            5 => passes(alloc, &self.out),
            6 => earlies(alloc, &self.out),
            7 => shown(alloc, &self.core.table().map(Table::entries)),
            8 => shown(alloc, &is_small()),
            9 => self.look(alloc, words),
            place => self.step(alloc, place, words),
        }
    }

    /// Makes a process of these words: who it is, how it is started, and at which reading.
    fn start(&mut self, alloc: Global, words: &mut Words<'_>) -> Result<String, AllocError> {
        let who = words.byte(2);
        let mode = match words.among(&["first", "again"]) {
            1 => Mode::Again,
            _ => Mode::First,
        };
        let h = words.number(LAST);
        match process(alloc, who, mode, h) {
            Ok(core) => self.core = core,
            Err(_) => return Err(AllocError),
        }
        Ok(String::new(alloc))
    }

    /// Gives the process the event at this place among the words of `call`, at the reading that comes next.
    fn step(
        &mut self,
        alloc: Global,
        place: usize,
        words: &mut Words<'_>,
    ) -> Result<String, AllocError> {
        let h = words.number(LAST);
        let event = self.spelled.event(place, words)?;
        shown(alloc, &self.core.step(event, h, &mut self.out))
    }

    /// Sends an update of these words: the reading, its order and atomicity, and the fields of its payload.
    fn send(&mut self, alloc: Global, words: &mut Words<'_>) -> Result<String, AllocError> {
        let h = words.number(LAST);
        let order = words.order();
        let atom = words.atom();
        let payload = self.spelled.payload(words)?;
        match self.core.propose(h, order, atom, payload, &mut self.out) {
            Ok(seq) => format!(in alloc; "Ok({seq})"),
            Err(fault) => format!(in alloc; "Err({})", fault_name(fault)),
        }
    }

    /// What the process says of itself: what is asked, at which reading.
    fn look(&mut self, alloc: Global, words: &mut Words<'_>) -> Result<String, AllocError> {
        let view = self.core.look(words.number(LAST));
        match words.among(&["reading", "length", "passed"]) {
            0 => shown(alloc, &view.reading),
            1 => shown(alloc, &view.length),
            _ => shown(alloc, &view.passed),
        }
    }
}
