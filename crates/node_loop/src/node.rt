//! A node between two events: its process, and what it takes again for each event.

use crate::event::{Given, happen, record};
use crate::sending::send_all;
use crate::spool::Spool;
use crate::text::Text;
use app_table::Machine;
use node_core::Core;
use record_text::Input;
use tw_io::{Link, Sink, WriteFailed};

/// A node: its process, how many events that had, its last reading, the reading at which it last gave itself its own clock as team
/// time, and what the last event gave.
#[derive(Drop)]
pub struct Node<A> {
    pub text: Text,
    pub who: u8,
    pub core: Core<A>,
    pub events: u32,
    pub last: u64,
    pub referred: Option<u64>,
    pub given: Given,
    pub spool: Spool,
}

impl<A: Machine> Node<A> {
    ghost use Rattle.std.specs.Prelude.{◌≡◌, ◌<◌, ◌+◌, ◌-◌, ◌^◌, List, ◌∷◌};
    ghost use Rattle.tw_machine.specs.Lives.{Happening};
    ghost use Rattle.tw_machine.specs.NodeRun.{Node as NodeSeen, calls_of, told_of};
    ghost use Rattle.tw_machine.specs.Record.{happening};
    ghost use Rattle.record_text.specs.Inputs.{input_seen};
    ghost use Rattle.node_loop.specs.Does.{Does};
    ghost use Rattle.node_loop.specs.Events.{meaning_by, written_of};
    ghost use Rattle.node_loop.specs.Happened.{IsTakable};
    ghost use Rattle.node_loop.specs.Runs.{Runs};

    /// Takes an input at the reading `h`. Its record is written, and then its datagrams are sent, each to its process; one that fails is
    /// lost. Fails only where the sink fails, and then nothing is sent.
    pub fn event<K: Sink, L: Link>(
        &mut self,
        h: u64,
        input: &Input<'_>,
        sink: &mut K,
        link: &mut L,
    ) -> Result<(), WriteFailed>
        requires team { self.old.core.state.team ≡ self.old.text.team }
        requires h { h < 2 ^ 60 }
        requires takable { IsTakable (input_seen input.now) }
        requires room { self.old.events < 2 ^ 32 - 1 }
        ensures runs { (n : NodeSeen A) (happened : List Happening) → Runs (meaning_by A.empty A.after A.snapshot_of) A.empty A.after n happened h self.old →
            Runs (meaning_by A.empty A.after A.snapshot_of) A.empty A.after n (happening n.wire h (input_seen input.now) ∷ happened) h self.new
            × (self.new.given.row ≡ (told_of n (self.old.events + 1) h (input_seen input.now) happened).row)
            × Does (K.taken sink.old) (K.taken sink.new) (K.faults sink.old) (K.faults sink.new) (L.sends link.old) (L.sends link.new) result
            (written_of n.text.team.line (told_of n (self.old.events + 1) h (input_seen input.now) happened))
            (calls_of n.text (told_of n (self.old.events + 1) h (input_seen input.now) happened)) }
        ensures events { self.new.events ≡ self.old.events + 1 }
        ensures text { self.new.text ≡ self.old.text }
        ensures team { self.new.core.state.team ≡ self.old.core.state.team }
        ensures last { self.new.last ≡ self.old.last }
        ensures referred { self.new.referred ≡ self.old.referred }
        ensures binding { L.binding link.new ≡ L.binding link.old }
        ensures arriving { L.arriving link.new ≡ L.arriving link.old }
        ensures faults { L.faults link.new ≡ L.faults link.old }
    {
        let text = &self.text;
        self.events += 1;
        happen(
            &mut self.core,
            &text.team,
            self.who,
            self.events,
            h,
            input,
            &mut self.given,
        );
        record(
            &mut self.spool,
            h,
            input,
            &self.given.row,
            self.given.packets.as_slice(),
            sink,
        )?;
        send_all(link, &text.peers, self.given.packets.as_slice());
        Ok(())
    }
}
