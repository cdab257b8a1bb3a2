//! One process of a team, for a program that brings its own clock and its own datagrams. Nothing in it waits, sends or reads a clock:
//! it is given events, and answers with what is to be sent.
//!
//! **What a program does with it.** It makes a [`Core`] of a sound team, with a machine to which nothing was applied, and [`Outputs`] that are used
//! again for each event. Then it calls, at readings of the own clock in microseconds:
//!
//! - `step` with `Event::Packet` for each datagram that comes, whatever bytes it has and whoever sent it;
//! - `step` with `Event::Tick` when nothing comes, often: a process does what is due (a sign of life, an election, the next decision) in steps
//!   alone. Some tenth of `pace` and of `decide` between two steps is often enough;
//! - `step` with `Event::Reference` where team time is known to lie in an interval;
//! - `propose` for an update that is to be sent to all;
//! - `look` for what may be believed at this reading: `up` says that the group may be.
//!
//! After each `step` and each `propose` every datagram of `out.sends` is to be spelled by `wire_body::write` and sent to the process that stands
//! beside it, and what stands in `out.passes` and `out.earlies` was delivered. One that is lost does no harm. The table has what was applied by then.
//!
//! **What a program owes.** Readings never fall, and keep the drift bound of the team, over crashes too. A reference holds team time. A process
//! starts as `Mode::First` once, ever; each later start is `Mode::Again`, at a reading above each earlier one. Datagrams aren't altered or forged
//! on their way. Where one of these fails a flag may be wrong; the calls stay safe, whatever comes.
//!
//! **What an error leaves.** Only `Core::new` takes memory: where it is refused, nothing is made. A packet that is dropped and a send that is
//! refused change nothing but what their time tells and what is due anyway. A core takes some 60 KB, its table 4 KB, at any time.
//!
//! **An example.** Process 0 of a team of three starts at its reading 5, is told the time, and looks; its time passes, and it gives signs of life;
//! it can't send an update, for it is in no group (`crates/call_worlds/stdin` has these calls, with their answers):
//!
//! ```text
//! let mut core = Core::new(alloc, team, 0, Mode::First, 5, Table::new(alloc)?)?;
//! let mut out = Outputs::new(alloc)?;
//! core.step(Event::Reference { lo: 5, hi: 5 }, 5, &mut out);    // Done
//! core.look(6).reading;                                         // Some(6)
//! core.step(Event::Tick, 7, &mut out);                          // Done
//! for (to, datagram) in out.sends.as_slice() {                  // a sign of life to 1, and one to 2
//!     send(to, datagram);
//! }
//! core.propose(8, Order::Total, Atom::Weak, b"a", &mut out);    // Err(NotUpToDate)
//! ```
//!
//! Rules held here: an event runs through the parts of a step, each with a function of its own that meets the part's
//! definition. A packet is read and taken or dropped; what it tells of time is noted and given to the clock; the clock is read,
//! whether or not the event is dropped; then the event's own rule runs, unless it was dropped; and then the duties run. A decision
//! goes on the list where all of its payloads are there; one that lacks a payload is held, and that payload is asked for. Updates that
//! come wait, or fill what is missing; who is up sends its own to all, and delivers what it may of its list and of what waits. Memory
//! is taken where a process is made, and never later.
#![tactic(auto)]

mod applying;
mod beat;
mod control;
mod deciding;
mod delivering;
mod duties;
mod electing;
mod entering;
mod grouping;
mod hearing;
mod packet;
mod process;
mod proposing;
mod rules;
mod sending;
mod state;
mod taking;
mod timing;
mod updating;

pub use process::{Core, Event};
pub use state::{Belief, Hold, Identity, Purpose, State, Vote};
pub use tw_types::{Answer, Earlies, Mode, Outputs, Passes, ProposeFault, Reason, Sends, View};
