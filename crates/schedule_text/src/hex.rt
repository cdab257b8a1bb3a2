//! Bytes as hexadecimal digits.

ghost use Rattle.std.specs.Prelude.{◌≡◌, ℕ, ◌<◌, List, false, IfOk, OnErr};
ghost use Rattle.std.specs.Fmt.{digit_glyph};
ghost use Rattle.tw_machine.specs.Grammar.{hex_digits, hex_word};
ghost use Rattle.schedule_text.specs.Bytes.{AreBytes};

use crate::grammar::Grammar;
use arrayvec::ArrayVec;

/// The number below 16 that a lower-case digit stands for.
fn digit(glyph: u8) -> Result<u8, Grammar>
    ensures read { IfOk result (λ d. (d < 16) × (glyph ≡ digit_glyph false d)) }
    ensures refused { OnErr result ((d : ℕ) → d < 16 → glyph ≡ digit_glyph false d → ⊥) }
{
    match glyph {
        b'0'..=b'9' => Ok(glyph - b'0'),
        b'a'..=b'f' => Ok(glyph - b'a' + 10),
        _ => Err(Grammar),
    }
}

/// The bytes that lower-case hexadecimal digits spell, two a byte, `N` bytes at most.
fn bytes_of<const N: usize>(digits: &[u8]) -> Result<ArrayVec<u8, N>, Grammar>
    ensures read { IfOk result (λ bytes. AreBytes N bytes.items × (digits.now ≡ hex_digits bytes.items)) }
    ensures refused { OnErr result ((bytes : List ℕ) → AreBytes N bytes → digits.now ≡ hex_digits bytes → ⊥) }
{
    if digits.len() % 2 == 1 || digits.len() / 2 > N {
        return Err(Grammar);
    }
    let mut bytes = ArrayVec::new();
    for i in 0..digits.len() / 2 {
        let high = digit(digits[2 * i])?;
        let low = digit(digits[2 * i + 1])?;
        bytes.push(16 * high + low);
    }
    Ok(bytes)
}

/// The bytes that a word spells, `N` at most: two lower-case hexadecimal digits a byte, and `-` for no byte.
pub fn bytes<const N: usize>(word: &[u8]) -> Result<ArrayVec<u8, N>, Grammar>
    ensures read { IfOk result (λ bytes. AreBytes N bytes.items × (word.now ≡ hex_word bytes.items)) }
    ensures refused { OnErr result ((bytes : List ℕ) → AreBytes N bytes → word.now ≡ hex_word bytes → ⊥) }
{
    match word {
        b"" => Err(Grammar),
        b"-" => Ok(ArrayVec::new()),
        _ => bytes_of(word),
    }
}
