//! Bytes as words: `1,2,3`, `-` for none, and `*5000` for so many that count up from 0 to 250 and begin again.

use call_words::Words;
use std::alloc::{AllocError, Global};

/// Where bytes that count up begin again.
const TURN: usize = 251;

/// The next word as bytes.
pub fn bytes(alloc: Global, words: &mut Words<'_>) -> Result<Vec<u8>, AllocError> {
    let mut bytes = Vec::new(alloc);
    let word = words.word();
    if let Some(count) = word.strip_prefix('*') {
        for place in 0..words.number_of(count, u16::MAX.into()) as usize {
            bytes.push((place % TURN) as u8)?;
        }
    } else if word != "-" {
        for part in word.split(',') {
            bytes.push(words.number_of(part, u8::MAX.into()) as u8)?;
        }
    }
    Ok(bytes)
}

/// Whether they count up.
fn are_counting(bytes: &[u8]) -> bool {
    bytes
        .iter()
        .enumerate()
        .all(|(place, byte)| usize::from(*byte) == place % TURN)
}

/// Bytes in words again, where more than eight count up.
pub fn as_words(alloc: Global, bytes: &[u8]) -> Result<String, AllocError> {
    let count = bytes.len();
    if count <= 8 {
        format!(in alloc; "{bytes:?}")
    } else if are_counting(bytes) {
        format!(in alloc; "*{count}")
    } else {
        format!(in alloc; "{count} other bytes")
    }
}
