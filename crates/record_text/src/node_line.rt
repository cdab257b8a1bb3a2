//! Lines of a node's text behind its team: where a process is reached, and whose clock is team time.

ghost use Rattle.std.specs.Prelude.{◌≡◌, ℕ, ◌<◌, List, length, IfOk, OnErr};
ghost use Rattle.std.specs.List.{AllByRecursion};
ghost use Rattle.tw_machine.specs.NodeText.{Address, IsAddress, ip_text, peer_line, clock_line, NamesOne, IsClockLine};
ghost use Rattle.record_text.specs.Addresses.{address_of};

use schedule_text::{Fields, Grammar, is_word};
use tw_io::Addr;

/// The four numbers of an address, which points part.
fn ip_of(word: &[u8]) -> Result<[u8; 4], Grammar>
    ensures read { IfOk result (λ ip. word.now ≡ ip_text ip) }
    ensures fits { IfOk result (λ ip. (length ip ≡ 4) × AllByRecursion (λ b. b < 256) ip) }
    ensures refused { OnErr result ((ip : List ℕ) → length ip ≡ 4 → AllByRecursion (λ b. b < 256) ip → word.now ≡ ip_text ip → ⊥) }
{
    let mut parts = Fields::parted(b'.', word);
    let [a, b, c, d] = parts.numbers::<4>()?;
    parts.end()?;
    if a > 255 || b > 255 || c > 255 || d > 255 {
        return Err(Grammar);
    }
    Ok([a as u8, b as u8, c as u8, d as u8])
}

/// Where process `who` is reached, by its line `peer WHO A.B.C.D PORT`. The line comes without its line feed. `Grammar` exactly
/// where it tells no address of this process: each part of an address is below 256, and a port is from 1 to 65,535.
pub fn read_peer(line: &[u8], who: u8) -> Result<Addr, Grammar>
    ensures read { IfOk result (λ at. (line.now ≡ peer_line who (address_of at)) × IsAddress (address_of at)) }
    ensures refused { OnErr result ((at : Address) → line.now ≡ peer_line who at → IsAddress at → ⊥) }
{
    let mut fields = Fields::of(line);
    if !is_word(fields.word()?, b"peer") || fields.number()? != u64::from(who) {
        return Err(Grammar);
    }
    let ip = ip_of(fields.word()?)?;
    let port = fields.number()?;
    fields.end()?;
    if port == 0 || port > u64::from(u16::MAX) {
        return Err(Grammar);
    }
    Ok(Addr {
        ip,
        port: port as u16,
    })
}

/// Whose clock, of `n` processes, is team time, by the line `clock WHO`; None by `clock none`. The line comes without its line
/// feed. `Grammar` exactly where it is neither.
pub fn read_clock(line: &[u8], n: u8) -> Result<Option<u8>, Grammar>
    ensures read { IfOk result (λ clock. (line.now ≡ clock_line clock) × NamesOne n clock) }
    ensures refused { OnErr result (IsClockLine n line.now → ⊥) }
{
    let mut fields = Fields::of(line);
    if !is_word(fields.word()?, b"clock") {
        return Err(Grammar);
    }
    let mut named = fields;
    if is_word(named.word()?, b"none") {
        named.end()?;
        return Ok(None);
    }
    let who = fields.number()?;
    fields.end()?;
    if who >= u64::from(n) {
        return Err(Grammar);
    }
    Ok(Some(who as u8))
}
