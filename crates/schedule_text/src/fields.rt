//! The words and numbers of one line, from left to right.

ghost use Rattle.std.specs.Prelude.{◌≡◌, ℕ, ◌<◌, ◌≤◌, ◌^◌, ◌==◌, List, [], ◌∷◌, ◌++◌, map, IfOk, OnErr, IfSome, IfNone, length};
ghost use Rattle.std.specs.List.{All, position, slice_split};
ghost use Rattle.std.specs.Bool.{Decides};
ghost use Rattle.std.specs.Fmt.{decimal};
ghost use Rattle.tw_machine.specs.Types.{Order as OrderSeen, Atom as AtomSeen};
ghost use Rattle.tw_machine.specs.Grammar.{IsPayload, order_word, atom_word, hex_word};
ghost use Rattle.schedule_text.specs.Bytes.{AreBytes};
ghost use Rattle.schedule_text.specs.Fields.{fields_left};

use crate::grammar::Grammar;
use crate::hex::bytes;
use arrayvec::ArrayVec;
use tw_types::{Atom, Order};

/// The most digits of a number below 2^60.
const DIGITS: usize = 19;

/// Each number of a line is below this limit.
const LIMIT: u64 = 1 << 60;

/// The number that a word spells in decimal digits, with no sign and no leading zero. No number of 20 digits is read.
fn number(word: &[u8]) -> Option<u64>
    ensures read { IfSome result (λ n. word.now ≡ decimal n) }
    ensures refused { IfNone result ((n : ℕ) → n < 2 ^ 60 → word.now ≡ decimal n → ⊥) }
{
    if word.is_empty() || word.len() > DIGITS || (word[0] == b'0' && word.len() > 1) {
        return None;
    }
    let mut number = 0;
    for byte in word {
        if !byte.is_ascii_digit() {
            return None;
        }
        number = number * 10 + u64::from(*byte - b'0');
    }
    Some(number)
}

/// The index of the first such byte.
fn first(wanted: u8, bytes: &[u8]) -> Option<usize>
    ensures first { result ≡ position (λ b. b == wanted) bytes.now }
    ensures within { IfSome result (λ i. i < length bytes.now) }
{
    bytes.iter().position(|byte| *byte == wanted)
}

/// Whether a word is this one.
pub fn is_word(word: &[u8], text: &[u8]) -> bool
    ensures { Decides result (word.now ≡ text.now) }
{
    word == text
}

/// The order that a word names.
fn order(word: &[u8]) -> Result<Order, Grammar>
    ensures read { IfOk result (λ order. word.now ≡ order_word order) }
    ensures refused { OnErr result ((order : OrderSeen) → word.now ≡ order_word order → ⊥) }
{
    if is_word(word, b"unordered") {
        Ok(Order::Unordered)
    } else if is_word(word, b"total") {
        Ok(Order::Total)
    } else if is_word(word, b"timed") {
        Ok(Order::Timed)
    } else {
        Err(Grammar)
    }
}

/// The atomicity that a word names.
fn atom(word: &[u8]) -> Result<Atom, Grammar>
    ensures read { IfOk result (λ atom. word.now ≡ atom_word atom) }
    ensures refused { OnErr result ((atom : AtomSeen) → word.now ≡ atom_word atom → ⊥) }
{
    if is_word(word, b"weak") {
        Ok(Atom::Weak)
    } else if is_word(word, b"strong") {
        Ok(Atom::Strong)
    } else if is_word(word, b"strict") {
        Ok(Atom::Strict)
    } else {
        Err(Grammar)
    }
}

/// The fields of a line that are still to be read. One space parts each two; within a word it may be another byte.
#[derive(Clone, Copy)]
pub struct Fields<'a> {
    between: u8,
    rest: Option<&'a [u8]>,
}

impl<'a> Fields<'a> {
    /// All fields of a line.
    pub fn of(line: &'a [u8]) -> Self
        ensures { fields_left result ≡ slice_split (λ b. b == 32) line.now }
    {
        Fields::parted(b' ', line)
    }

    /// All fields of a text, parted by this byte.
    pub fn parted(between: u8, text: &'a [u8]) -> Self
        ensures { fields_left result ≡ slice_split (λ b. b == between) text.now }
    {
        Fields {
            between,
            rest: Some(text),
        }
    }

    /// Takes the next field, which may be empty. It is an error where none is left.
    #[tactic(auto, using(tw_machine::proofs::Lines::last_word))]
    pub fn word(&mut self) -> Result<&'a [u8], Grammar>
        ensures taken { IfOk result (λ word. fields_left self.old ≡ word.now ∷ fields_left self.new) }
        ensures none { OnErr result (fields_left self.old ≡ []) }
    {
        let Some(rest) = self.rest else {
            return Err(Grammar);
        };
        if let Some(end) = first(self.between, rest) {
            let (word, after) = rest.split_at(end);
            self.rest = Some(&after[1..]);
            Ok(word)
        } else {
            self.rest = None;
            Ok(rest)
        }
    }

    /// Takes the next field, which is to be a number below 2^60.
    pub fn number(&mut self) -> Result<u64, Grammar>
        ensures taken { IfOk result (λ n. (n < 2 ^ 60) × (fields_left self.old ≡ decimal n ∷ fields_left self.new)) }
        ensures refused { OnErr result ((n : ℕ) (more : List (List ℕ)) → n < 2 ^ 60 → fields_left self.old ≡ decimal n ∷ more → ⊥) }
    {
        match number(self.word()?) {
            Some(number) if number < LIMIT => Ok(number),
            _ => Err(Grammar),
        }
    }

    /// Takes as many fields as the result has numbers, which are to be below 2^60.
    pub fn numbers<const N: usize>(&mut self) -> Result<[u64; N], Grammar>
        ensures taken { IfOk result (λ ns. All (λ n. n < 2 ^ 60) ns × (fields_left self.old ≡ map decimal ns ++ fields_left self.new)) }
        ensures refused { OnErr result ((ns : List ℕ) (more : List (List ℕ)) → length ns ≡ N → All (λ n. n < 2 ^ 60) ns → fields_left self.old ≡ map decimal ns ++ more → ⊥) }
    {
        let mut numbers = [0; N];
        for number in &mut numbers {
            *number = self.number()?;
        }
        Ok(numbers)
    }

    /// Takes the next field, which is to be the number of a datagram, below 2^32.
    pub fn datagram(&mut self) -> Result<u32, Grammar>
        ensures taken { IfOk result (λ d. (d < 2 ^ 32) × (fields_left self.old ≡ decimal d ∷ fields_left self.new)) }
        ensures refused { OnErr result ((d : ℕ) (more : List (List ℕ)) → d < 2 ^ 32 → fields_left self.old ≡ decimal d ∷ more → ⊥) }
    {
        let number = self.number()?;
        if number > u64::from(u32::MAX) {
            return Err(Grammar);
        }
        Ok(number as u32)
    }

    /// Takes the two ends of an interval, in microseconds below 2^60, the first at most the second.
    pub fn interval(&mut self) -> Result<(u64, u64), Grammar>
        ensures taken { IfOk result (λ ends. (ends.0 ≤ ends.1) × (ends.1 < 2 ^ 60) × (fields_left self.old ≡ decimal ends.0 ∷ decimal ends.1 ∷ fields_left self.new)) }
        ensures refused { OnErr result ((lo hi : ℕ) (more : List (List ℕ)) → lo ≤ hi → hi < 2 ^ 60 → fields_left self.old ≡ decimal lo ∷ decimal hi ∷ more → ⊥) }
    {
        let lo = self.number()?;
        let hi = self.number()?;
        if hi < lo {
            return Err(Grammar);
        }
        Ok((lo, hi))
    }

    /// Takes the next field, which is to spell bytes, `N` at most: two lower-case hexadecimal digits a byte, and `-` for no byte.
    pub fn bytes<const N: usize>(&mut self) -> Result<ArrayVec<u8, N>, Grammar>
        ensures taken { IfOk result (λ bytes. AreBytes N bytes.items × (fields_left self.old ≡ hex_word bytes.items ∷ fields_left self.new)) }
        ensures refused { OnErr result ((bytes : List ℕ) (more : List (List ℕ)) → AreBytes N bytes → fields_left self.old ≡ hex_word bytes ∷ more → ⊥) }
    {
        bytes(self.word()?)
    }

    /// Takes the order, the atomicity and the payload of an update, each in a field of its own.
    pub fn update(&mut self) -> Result<(Order, Atom, ArrayVec<u8, 1024>), Grammar>
        ensures taken { IfOk result (λ u. IsPayload u.2.items × (fields_left self.old ≡ order_word u.0 ∷ atom_word u.1 ∷ hex_word u.2.items ∷ fields_left self.new)) }
        ensures refused { OnErr result ((order : OrderSeen) (atom : AtomSeen) (bytes : List ℕ) (more : List (List ℕ)) → IsPayload bytes → fields_left self.old ≡ order_word order ∷ atom_word atom ∷ hex_word bytes ∷ more → ⊥) }
    {
        let order = order(self.word()?)?;
        let atom = atom(self.word()?)?;
        let payload = self.bytes::<1024>()?;
        Ok((order, atom, payload))
    }

    /// Wants no field to be left.
    pub fn end(&self) -> Result<(), Grammar>
        ensures none { IfOk result (λ _. fields_left self.now ≡ []) }
        ensures some { OnErr result (fields_left self.now ≡ [] → ⊥) }
    {
        match self.rest {
            None => Ok(()),
            Some(_) => Err(Grammar),
        }
    }
}
