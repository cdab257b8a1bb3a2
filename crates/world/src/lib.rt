//! The processes of a team under a schedule.
//!
//! Rules held here: which step may follow the steps before it; what a step makes of its process, and its row; what a process
//! receives is the bytes of the datagram that was sent. A crash takes the process away, and neither its readings, nor that it
//! was started, nor what it sent. Every refusal leaves the world and the row as they were. Of a process's readings the world
//! keeps the last and two bounds, however many they are. The timed model is Cristian and Fetzer's.
#![tactic(auto)]

mod bounds;
mod laws;
mod node;
mod refused;
mod sent;
mod world;

pub use laws::columns_are_of_their_events;
pub use refused::Refused;
pub use world::World;
