//! The words of one line.

ghost use Rattle.std.specs.Prelude.{◌≤◌, IfSome};

use tw_num::Interval;
use tw_types::{Atom, Order, UpdateId};

/// The greatest reading of a clock.
pub const LAST: u64 = (1 << 60) - 1;

/// The words of a call, from the next one on.
#[derive(Drop)]
pub struct Words<'a> {
    rest: &'a str,
    /// A word was missing, or one wasn't what it has to be.
    pub are_wrong: bool,
}

impl<'a> Words<'a> {
    pub fn new(line: &'a str) -> Words<'a> {
        Words {
            rest: line,
            are_wrong: false,
        }
    }

    /// The next word, and none where the line has ended, which is wrong.
    pub fn word(&mut self) -> &'a str {
        let (word, rest) = self.rest.split_once(' ').unwrap_or((self.rest, ""));
        self.rest = rest;
        if word.is_empty() {
            self.are_wrong = true;
        }
        word
    }

    /// The words that are left.
    pub fn line(&mut self) -> &'a str {
        let line = self.rest;
        self.rest = "";
        line
    }

    /// Whether no word is left.
    pub fn have_ended(&self) -> bool {
        self.rest.is_empty()
    }

    /// The place of the next word among these. It is wrong where it is none of them.
    pub fn among(&mut self, names: &[&str]) -> usize {
        let word = self.word();
        let mut place = 0usize;
        for name in names {
            if *name == word {
                return place;
            }
            place = place.saturating_add(1);
        }
        self.are_wrong = true;
        place
    }

    /// This word as a number from 0 to `most`, and 0 where it is none, which is wrong.
    pub fn number_of(&mut self, word: &str, most: u64) -> u64
        ensures { result ≤ most }
    {
        match word.parse() {
            Ok(number) if number <= most => number,
            _ => {
                self.are_wrong = true;
                0
            }
        }
    }

    /// The next word as a number from 0 to `most`.
    pub fn number(&mut self, most: u64) -> u64
        ensures { result ≤ most }
    {
        let word = self.word();
        self.number_of(word, most)
    }

    /// The next word as a number from 0 to `most`.
    pub fn byte(&mut self, most: u8) -> u8
        ensures { result ≤ most }
    {
        self.number(most.into()) as u8
    }

    /// The next word as a number of an update.
    pub fn seq(&mut self) -> u32 {
        self.number(u32::MAX.into()) as u32
    }

    /// The next word as a number from 0 to 65,535, of what is counted in memory.
    pub fn count(&mut self) -> usize {
        self.number(u16::MAX.into()) as usize
    }

    /// The next word as a number from 0 to `most`, or `-` for none.
    pub fn maybe(&mut self, most: u64) -> Option<u64>
        ensures { IfSome result (λ number. number ≤ most) }
    {
        let word = self.word();
        if word == "-" {
            return None;
        }
        Some(self.number_of(word, most))
    }

    /// The next word, which says yes or no.
    pub fn yes(&mut self) -> bool {
        self.among(&["yes", "no"]) == 0
    }

    /// The next three words as the id of an update: its sender, the incarnation and the number.
    pub fn id(&mut self) -> UpdateId {
        UpdateId {
            who: self.byte(u8::MAX),
            incarnation: self.number(u64::MAX),
            seq: self.seq(),
        }
    }

    /// The next word as an order.
    pub fn order(&mut self) -> Order {
        match self.among(&["unordered", "total", "timed"]) {
            1 => Order::Total,
            2 => Order::Timed,
            _ => Order::Unordered,
        }
    }

    /// The next word as an atomicity.
    pub fn atom(&mut self) -> Atom {
        match self.among(&["weak", "strong", "strict"]) {
            1 => Atom::Strong,
            2 => Atom::Strict,
            _ => Atom::Weak,
        }
    }

    /// The next two words as an interval that ends at `most` at the latest.
    pub fn interval(&mut self, most: u64) -> Interval
        ensures ordered { result.lo ≤ result.hi }
        ensures range { result.hi ≤ most }
    {
        let lo = self.number(most);
        let hi = self.number(most);
        if lo <= hi {
            return Interval { lo, hi };
        }
        self.are_wrong = true;
        Interval { lo: 0, hi: 0 }
    }
}
