//! The head of a datagram: its first 57 bytes.

ghost use Rattle.std.specs.Prelude.{◌≡◌, ◌+◌, ◌%◌, ◌==◌, ◌<◌, ◌≤◌, ◌^◌, ◌++◌, nat_le, ℕ, List, length, drop, IfOk, IfErr, Ok, Err};
ghost use Rattle.tw_num.specs.declared.interval.Interval.{Interval};
ghost use Rattle.tw_types.specs.declared.datagram.Head.{Head};
ghost use Rattle.tw_types.specs.declared.datagram.Echo.{Echo};
ghost use Rattle.tw_types.specs.declared.datagram.WireFault.TheVariants.{Short, Long, Version, Line, Kind};
ghost use Rattle.tw_types.specs.Team.{IsSound};
ghost use Rattle.tw_types.specs.Bytes.{guarded, eight};
ghost use Rattle.tw_types.specs.Ranges.{HeadFits};
ghost use Rattle.tw_types.specs.Spelling.{head_bytes, interval_bytes, echo_bytes, flags_of};
ghost use Rattle.wire_head.specs.Reading.{where_allowed, guarded_at, interval_at, echo_at, head_at};
ghost use Rattle.wire_head.specs.Writing.{Writes};

use crate::reading::{
    byte_at, byte_to, count_at, time_at, u32_at, u64_at, where_allowed, zeros_at,
};
use crate::writing::{put_byte, put_two, put_u32, put_u64, put_zeros};
use tw_num::Interval;
use tw_types::{Echo, Head, Team, WireFault};

#[tactic(auto, unfolding(crate::specs::Reading::interval_at, crate::specs::Reading::checked_at))]
fn interval_at(bytes: &[u8], place: usize) -> Result<Interval, WireFault>
    requires { place < 2 ^ 15 }
    ensures { result ≡ interval_at bytes.now place }
{
    let lo = time_at(bytes, place)?;
    let hi = u64_at(bytes, place + 8)?;
    where_allowed(lo <= hi && hi < 1 << 61, (), place + 8)?;
    Ok(Interval { lo, hi })
}

#[tactic(auto, unfolding(crate::specs::Reading::guarded_at))]
fn interval_if(present: bool, bytes: &[u8], place: usize) -> Result<Option<Interval>, WireFault>
    requires { place < 2 ^ 15 }
    ensures { result ≡ guarded_at present 2 interval_at bytes.now place }
{
    if present {
        Ok(Some(interval_at(bytes, place)?))
    } else {
        zeros_at(2, bytes, place)?;
        Ok(None)
    }
}

#[tactic(auto, unfolding(crate::specs::Reading::echo_at))]
fn echo_at(bytes: &[u8], place: usize) -> Result<Echo, WireFault>
    requires { place < 2 ^ 15 }
    ensures { result ≡ echo_at bytes.now place }
{
    let a = count_at(bytes, place)?;
    let b = count_at(bytes, place + 8)?;
    Ok(Echo { a, b })
}

#[tactic(auto, unfolding(crate::specs::Reading::guarded_at))]
fn echo_if(present: bool, bytes: &[u8], place: usize) -> Result<Option<Echo>, WireFault>
    requires { place < 2 ^ 15 }
    ensures { result ≡ guarded_at present 2 echo_at bytes.now place }
{
    if present {
        Ok(Some(echo_at(bytes, place)?))
    } else {
        zeros_at(2, bytes, place)?;
        Ok(None)
    }
}

fn fault_unless(allowed: bool, fault: WireFault) -> Result<(), WireFault>
    ensures { result ≡ where_allowed allowed fault tt }
{
    if !allowed {
        return Err(fault);
    }
    Ok(())
}

#[tactic(auto, unfolding(crate::specs::Reading::head_at, crate::specs::Reading::checked_at))]
fn first_fields(team: &Team, bytes: &[u8]) -> Result<(Head, u8), WireFault>
    ensures exact { result ≡ head_at team.now bytes.now }
    ensures line { team.now.line < 2 ^ 32 }
{
    let own_line = team.line;
    let version = byte_at(bytes, 0)?;
    fault_unless(version == 1, WireFault::Version)?;
    let kind = byte_at(bytes, 1)?;
    fault_unless(1 <= kind && kind <= 8, WireFault::Kind)?;
    let line = u32_at(bytes, 2)?;
    fault_unless(line == own_line, WireFault::Line)?;
    let from = byte_at(bytes, 6)?;
    let to = byte_at(bytes, 7)?;
    let incarnation = count_at(bytes, 8)?;
    let sent = count_at(bytes, 16)?;
    let flags = byte_to(3, bytes, 24)?;
    let interval = interval_if(flags % 2 == 1, bytes, 25)?;
    let echo = echo_if(flags >= 2, bytes, 41)?;
    let head = Head {
        from,
        to,
        incarnation,
        sent,
        interval,
        echo,
    };
    Ok((head, kind))
}

/// The head of a datagram and the number of its kind, from the first 57 bytes. Bytes may follow.
///
/// The fault is the first one from left to right: Short where the bytes end within a field, Version where the version
/// isn't 1, Kind where the kind isn't 1 to 8, Line where the line isn't that of the team, and `Field` with the place of
/// the field for another value that isn't allowed. It is never Long.
pub fn read_head(team: &Team, bytes: &[u8]) -> Result<(Head, u8), WireFault>
    requires { IsSound team.now }
    // What is read is spelled so.
    ensures found { IfOk result (λ x. HeadFits x.0 × (1 ≤ x.1) × (x.1 ≤ 8) × (bytes.now ≡ head_bytes team.now.line x.1 x.0 ++ drop 57 bytes.now)) }
    // What is spelled so is read, whatever follows.
    ensures only { (head : Head) (kind : ℕ) (rest : List ℕ) → HeadFits head → 1 ≤ kind → kind ≤ 8 → bytes.now ≡ head_bytes team.now.line kind head ++ rest → (result ≡ Ok (head, kind)) × (drop 57 bytes.now ≡ rest) }
    // What ends within such a spelling is cut short.
    ensures cut { (head : Head) (kind : ℕ) (more : List ℕ) → HeadFits head → 1 ≤ kind → kind ≤ 8 → 0 < length more → head_bytes team.now.line kind head ≡ bytes.now ++ more → result ≡ Err Short }
    // Which fault it is.
    ensures exact { result ≡ head_at team.now bytes.now }
    ensures never_long { IfErr result (λ fault. (fault ≡ Long) → ⊥) }
{
    first_fields(team, bytes)
}

fn put_interval(out: &mut [u8; 4096], place: usize, interval: Option<Interval>) -> usize
    requires { place + 16 ≤ 4096 }
    ensures end { result ≡ place + 16 }
    ensures text { Writes out.old place (guarded 2 interval_bytes interval) out.new result }
{
    match interval {
        None => put_zeros(out, place, 2),
        Some(Interval { lo, hi }) => put_two(out, place, lo, hi),
    }
}

fn put_echo(out: &mut [u8; 4096], place: usize, echo: Option<Echo>) -> usize
    requires { place + 16 ≤ 4096 }
    ensures end { result ≡ place + 16 }
    ensures text { Writes out.old place (guarded 2 echo_bytes echo) out.new result }
{
    match echo {
        None => put_zeros(out, place, 2),
        Some(Echo { a, b }) => put_two(out, place, a, b),
    }
}

/// 1 for an interval, 2 for an echo, 3 for both.
fn flags_of(head: &Head) -> u8
    ensures { result ≡ flags_of head.now }
{
    match (head.interval, head.echo) {
        (None, None) => 0,
        (Some(_), None) => 1,
        (None, Some(_)) => 2,
        (Some(_), Some(_)) => 3,
    }
}

fn put_head(team: &Team, head: &Head, kind: u8, out: &mut [u8; 4096]) -> usize
    ensures end { result ≡ 57 }
    ensures text { Writes out.old 0 (head_bytes team.now.line kind head.now) out.new result }
{
    let place = put_byte(out, 0, 1);
    let place = put_byte(out, place, kind);
    let place = put_u32(out, place, team.line);
    let place = put_byte(out, place, head.from);
    let place = put_byte(out, place, head.to);
    let place = put_u64(out, place, head.incarnation);
    let place = put_u64(out, place, head.sent);
    let place = put_byte(out, place, flags_of(head));
    let place = put_interval(out, place, head.interval);
    put_echo(out, place, head.echo)
}

/// Writes the head of a datagram of this kind, 57 bytes, and leaves the rest of the buffer as it was.
pub fn write_head(team: &Team, head: &Head, kind: u8, out: &mut [u8; 4096])
    requires team { IsSound team.now }
    requires head { HeadFits head.now }
    requires known { 1 ≤ kind }
    requires kind { kind ≤ 8 }
    ensures bytes { out.new ≡ head_bytes team.now.line kind head.now ++ drop 57 out.old }
    ensures size { length (head_bytes team.now.line kind head.now) ≡ 57 }
{
    put_head(team, head, kind, out);
}
