//! The election that the owner of a slot holds: when it begins, who answers it, and when its ballot is complete.
//!
//! Each slot of team time has one owner, which alone may begin a ballot of the slot's number in it. So ballots of different
//! processes don't meet, and a process that is stuck tries again in its next slot.
//!
//! Rules held here: the owner of the present slot begins a ballot where it is stuck, or has a wish to grant, and may promise
//! the number; who promises in answer, and why others don't, the first reason that holds; a ballot is complete when all
//! reported, or half of its slot is over.
//!
//! The decider's timewheel of Mishra, Fetzer and Cristian goes round in slots as well. That a slot's number is the group's,
//! and the reasons to begin and to answer, are rules of this project.
#![tactic(auto)]

mod slot;

pub use slot::{answer_slot, begin_slot, complete};
