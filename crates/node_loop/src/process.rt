//! What an input makes of the process of a node.

ghost use Rattle.std.specs.Prelude.{◌≡◌, ◌<◌, ◌^◌, ℕ, List};
ghost use Rattle.tw_num.specs.Clock.{IsNotBefore};
ghost use Rattle.tw_types.specs.Outputs.{nothing};
ghost use Rattle.tw_types.specs.Process.{Process};
ghost use Rattle.tw_machine.specs.Step.{row_answer};
ghost use Rattle.tw_machine.specs.Record.{happening};
ghost use Rattle.node_core.specs.Outcomes.{send_answer};
ghost use Rattle.node_core.specs.WithMachine.{StandsWith};
ghost use Rattle.wire_body.specs.Reading.{datagram_at};
ghost use Rattle.record_text.specs.Inputs.{input_seen};
ghost use Rattle.node_loop.specs.Happened.{HasHappened, IsTakable};
ghost use Rattle.std.specs.List.{AllByRecursion};
ghost use Rattle.node_core.specs.Sends.{IsSendable};

use app_table::Machine;
use node_core::{Core, Event};
use record_text::Input;
use tw_types::{Answer, Outputs, ProposeFault, RowAnswer};

fn row_answer(answer: Answer) -> RowAnswer
    ensures { result ≡ row_answer answer }
{
    match answer {
        Answer::Done => RowAnswer::Done,
        Answer::Dropped(reason) => RowAnswer::Dropped(reason),
    }
}

/// How a row tells the answer to a send.
fn send_answer(answer: Result<u32, ProposeFault>) -> RowAnswer
    ensures { result ≡ send_answer answer }
{
    match answer {
        Ok(seq) => RowAnswer::Sent(seq),
        Err(why) => RowAnswer::Refused(why),
    }
}

/// What an input makes of a process, but for the look at it that comes then.
pub fn take<A: Machine>(
    core: &mut Core<A>,
    h: u64,
    input: &Input<'_>,
    out: &mut Outputs,
) -> RowAnswer
    requires h { h < 2 ^ 60 }
    requires takable { IsTakable (input_seen input.now) }
    ensures happened { (p : Process) → StandsWith A.empty A.after core.old p → IsNotBefore h p.timing.clock →
        HasHappened A.empty A.after core.old.state.team h (happening (datagram_at core.old.state.team) h (input_seen input.now)) core.new result out.new p }
    ensures fits { AllByRecursion (IsSendable core.old.state.team.n) out.new.sends }
    ensures team { core.new.state.team ≡ core.old.state.team }
{
    match *input {
        Input::Tick => row_answer(core.step(Event::Tick, h, out)),
        Input::Packet(bytes) => row_answer(core.step(Event::Packet(bytes), h, out)),
        Input::Reference { lo, hi } => row_answer(core.step(Event::Reference { lo, hi }, h, out)),
        Input::Send {
            order,
            atom,
            payload,
        } => send_answer(core.propose(h, order, atom, payload, out)),
        Input::Look => {
            out.clear();
            RowAnswer::Look
        }
    }
}
