//! How a command ends: its number, and its line on standard error.

use std::fmt;
use std::marker::Model;
use tw_types::{Cause, TeamFault};

/// What the program takes.
const USAGE: &str =
    "usage: timewheel replay | rerun | node WHO first|again TURNS | demo SEED STEPS";

/// A line of text, as bytes.
#[derive(Drop)]
pub struct Text {
    bytes: Vec<u8>,
}

impl Model for Text {
    ghost use Rattle.std.specs.Prelude.{ℕ, List};

    ghost Value = { List ℕ };

    ghost view = { λ text. text.bytes.items };
}

/// How a command ended.
#[derive(Drop)]
pub enum Status {
    /// All was done.
    Ok,
    /// The words aren't a command.
    Usage,
    /// The team line is read, and its team has this fault.
    BadTeam(TeamFault),
    /// This line, counted from 1, is the first that can't be taken, for this cause.
    BadSchedule(u64, Cause),
    /// The input has more lines than a command takes.
    TooLong,
    /// The source failed.
    ReadFault,
    /// The sink failed.
    WriteFault,
    /// The link failed.
    LinkFault,
    /// This line of a record isn't what is computed: the recorded line, and the computed one.
    Differs(u64, Text, Text),
    /// The clock reached 2^60.
    ClockSpent,
    /// There was no memory for it.
    WantOfMemory,
}

impl Text {
    ghost use Rattle.std.specs.Prelude.{◌≡◌};

    /// A line of these bytes, which are text of any kind.
    pub fn new(bytes: Vec<u8>) -> Text
        ensures { result ≡ bytes.items }
    {
        Text { bytes }
    }

    pub fn as_bytes(&self) -> &[u8]
        ensures { result.now ≡ self.now }
    {
        &self.bytes
    }
}

impl fmt::Display for Text {
    fn fmt<W: fmt::Write>(&self, f: &mut fmt::Formatter<W>) -> fmt::Result {
        for byte in self.as_bytes() {
            f.write_char(char::from(*byte))?;
        }
        Ok(())
    }
}

fn cause_words(cause: Cause) -> &'static str {
    match cause {
        Cause::Grammar => "grammar",
        Cause::Time => "time",
        Cause::Drift => "drift",
        Cause::Start => "start",
        Cause::NotRunning => "not running",
        Cause::NoDatagram => "no datagram",
        Cause::Reference => "reference",
    }
}

fn fault_word(fault: TeamFault) -> &'static str {
    match fault {
        TeamFault::Size => "size",
        TeamFault::Drift => "drift",
        TeamFault::Eps => "eps",
        TeamFault::Slot => "slot",
        TeamFault::Pace => "pace",
        TeamFault::Lease => "lease",
        TeamFault::Quarantine => "quarantine",
        TeamFault::Range => "range",
    }
}

/// The line that the program prints on standard error, but for `Ok`, of which it prints nothing.
impl fmt::Display for Status {
    fn fmt<W: fmt::Write>(&self, f: &mut fmt::Formatter<W>) -> fmt::Result {
        match self {
            Status::Ok => Ok(()),
            Status::Usage => f.write_str(USAGE),
            Status::BadTeam(fault) => {
                let word = fault_word(*fault);
                write!(f, "bad team: {word}")
            }
            Status::BadSchedule(line, cause) => {
                let words = cause_words(*cause);
                write!(f, "line {line}: {words}")
            }
            Status::TooLong => f.write_str("input too long"),
            Status::ReadFault => f.write_str("read failed"),
            Status::WriteFault => f.write_str("write failed"),
            Status::LinkFault => f.write_str("link failed"),
            Status::Differs(line, recorded, computed) => {
                write!(
                    f,
                    "line {line} differs: recorded {recorded}, computed {computed}"
                )
            }
            Status::ClockSpent => f.write_str("clock spent"),
            Status::WantOfMemory => f.write_str("out of memory"),
        }
    }
}

impl Status {
    ghost use Rattle.std.specs.Prelude.{◌≡◌};
    ghost use Rattle.schedule_text.specs.Numbers.{number_of};

    /// The program's exit status.
    pub fn number(&self) -> u8
        ensures { result ≡ number_of self.now }
    {
        match self {
            Status::Ok => 0,
            Status::Usage => 2,
            Status::BadTeam(_) => 3,
            Status::BadSchedule(_, _) => 4,
            Status::TooLong => 5,
            Status::ReadFault => 6,
            Status::WriteFault => 7,
            Status::LinkFault => 8,
            Status::Differs(_, _, _) => 9,
            Status::ClockSpent => 10,
            Status::WantOfMemory => 11,
        }
    }
}
