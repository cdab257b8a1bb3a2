//! What a client asks for.

ghost use Rattle.std.specs.Prelude.{◌≡◌, ℕ, List, IfOk, OnErr};
ghost use Rattle.tw_machine.specs.Types.{Order as OrderSeen, Atom as AtomSeen};
ghost use Rattle.tw_machine.specs.Grammar.{IsPayload};
ghost use Rattle.tw_machine.specs.NodeRun.{send_text, IsRequest, IsLineOf};
ghost use Rattle.record_text.specs.Requests.{request_seen};

use arrayvec::ArrayVec;
use schedule_text::{Fields, Grammar, is_word};
use tw_types::{Atom, Order};

/// What a client asks for.
#[derive(Drop)]
pub enum Request {
    /// That an update is sent.
    Send {
        order: Order,
        atom: Atom,
        payload: ArrayVec<u8, 1024>,
    },
    /// What the process says.
    Look,
    /// That the node ends.
    Stop,
    /// Nothing that a node knows.
    Unknown,
}

/// The update that a line `send ORDER ATOM HEX` spells.
fn update_in(line: &[u8]) -> Result<(Order, Atom, ArrayVec<u8, 1024>), Grammar>
    ensures read { IfOk result (λ u. (line.now ≡ send_text u.0 u.1 u.2.items) × IsPayload u.2.items) }
    ensures refused { OnErr result ((order : OrderSeen) (atom : AtomSeen) (payload : List ℕ) → line.now ≡ send_text order atom payload → IsPayload payload → ⊥) }
{
    let mut fields = Fields::of(line);
    if !is_word(fields.word()?, b"send") {
        return Err(Grammar);
    }
    let update = fields.update()?;
    fields.end()?;
    Ok(update)
}

/// What a client's line asks for. The line comes without its line feed.
pub fn read_request(line: &[u8]) -> Request
    ensures { IsRequest line.now (request_seen result) }
{
    if is_word(line, b"look") {
        return Request::Look;
    }
    if is_word(line, b"stop") {
        return Request::Stop;
    }
    match update_in(line) {
        Ok((order, atom, payload)) => Request::Send {
            order,
            atom,
            payload,
        },
        Err(_) => Request::Unknown,
    }
}

/// The line that a client's datagram has: one line feed at its end is no part of it.
pub fn request_line(bytes: &[u8]) -> &[u8]
    ensures { IsLineOf bytes.now result.now }
{
    match bytes.split_last() {
        Some((b'\n', line)) => line,
        _ => bytes,
    }
}
