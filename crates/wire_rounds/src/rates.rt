//! How many datagrams are read and written in a second.

ghost use Rattle.tw_types.specs.Team.{IsSound};
ghost use Rattle.tw_types.specs.Ranges.{DatagramFits};

use crate::page::{Page, ROOM};
use crate::samples::Sample;
use crate::team::team_of;
use std::io;
use std::time::{Duration, Instant};
use tw_types::{Datagram, Team};
use wire_body::{blank, read, read_into, write};

/// Reads the text so many times into one place, each time with another last byte of the clock's reading.
fn read_all(team: &Team, page: &mut Page, rounds: u32) -> u64
    requires { IsSound team.now }
{
    let mut inbox = blank();
    let mut sum = 0u64;
    for i in 0..rounds {
        if let Some(byte) = page.bytes.get_mut(23) {
            *byte = (i % 256) as u8;
        }
        if read_into(team, page.text(page.end), &mut inbox).is_ok() {
            sum = sum.wrapping_add(inbox.head.sent);
        }
    }
    sum
}

/// Reads the two texts in turn into one place, so many times in all.
fn read_in_turn(team: &Team, pair: (&[u8], &[u8]), rounds: u32) -> u64
    requires { IsSound team.now }
{
    let (first, second) = pair;
    let mut inbox = blank();
    let mut sum = 0u64;
    for i in 0..rounds {
        let text = if i % 2 == 0 { first } else { second };
        if read_into(team, text, &mut inbox).is_ok() {
            sum = sum.wrapping_add(inbox.head.incarnation);
        }
    }
    sum
}

/// Writes the two datagrams in turn, so many times in all.
fn write_all(team: &Team, pair: (&Datagram, &Datagram), rounds: u32) -> u64
    requires sound { IsSound team.now }
    requires first { DatagramFits team.now.n pair.0.now }
    requires second { DatagramFits team.now.n pair.1.now }
{
    let (first, second) = pair;
    let mut out = [0; ROOM];
    let mut sum = 0u64;
    for i in 0..rounds {
        let datagram = if i % 2 == 0 { first } else { second };
        let length = write(team, datagram, &mut out);
        let byte = out.get(length / 2).copied().unwrap_or(0);
        sum = sum.wrapping_add(byte.into());
    }
    sum
}

/// So many in so long a time, by the second.
fn rate(rounds: u32, time: Duration) -> u128 {
    let micros = time.as_micros().max(1);
    u128::from(rounds) * 1_000_000 / micros
}

fn print_one(rt: &HostRuntime, sample: Sample, rounds: u32) -> io::Result<()> {
    let team = team_of(if sample.is_long { 15 } else { 3 });
    let mut page = sample.page();
    let start = Instant::now(rt)?;
    let read_sum = read_all(&team, &mut page, rounds);
    let read_time = start.elapsed(rt)?;
    let first = read(&team, page.text(page.end));
    if let Some(byte) = page.bytes.get_mut(23) {
        *byte ^= 1;
    }
    let second = read(&team, page.text(page.end));
    if let (Ok(first), Ok(second)) = (first, second) {
        let start = Instant::now(rt)?;
        let write_sum = write_all(&team, (&first, &second), rounds);
        let write_time = start.elapsed(rt)?;
        println!(rt;
            "{}-{} {} read {} written {} sum {}",
            sample.name(),
            sample.size_name(),
            page.end,
            rate(rounds, read_time),
            rate(rounds, write_time),
            read_sum.wrapping_add(write_sum)
        )?;
    }
    Ok(())
}

/// A decision and a sign of life, in turn.
fn print_in_turn(rt: &HostRuntime, is_long: bool, rounds: u32) -> io::Result<()> {
    let team = team_of(if is_long { 15 } else { 3 });
    let decision = Sample { kind: 2, is_long };
    let first = decision.page();
    let second = Sample { kind: 8, is_long }.page();
    let pair = (first.text(first.end), second.text(second.end));
    let start = Instant::now(rt)?;
    let sum = read_in_turn(&team, pair, rounds);
    let time = start.elapsed(rt)?;
    println!(rt;
        "in-turn-{} {} read {} written 0 sum {sum}",
        decision.size_name(),
        first.end,
        rate(rounds, time)
    )
}

/// Prints the rates of a short and a longest datagram of each kind, and of two kinds in turn.
pub fn print(rt: &HostRuntime, rounds: u32) -> io::Result<()> {
    for kind in 1..=8 {
        for is_long in [false, true] {
            print_one(rt, Sample { kind, is_long }, rounds)?;
        }
    }
    print_in_turn(rt, false, rounds)?;
    print_in_turn(rt, true, rounds)
}
