//! Calls of `state_transfer`.

ghost use Rattle.std.specs.Prelude.{◌≡◌, ◌≤◌, ◌<◌, ◌%◌, length, IfOk, IfSome};
ghost use Rattle.state_transfer.specs.Pieces.{HasPiece};

use call_words::{Words, shown};
use state_transfer::{Incoming, serve_chunk};
use std::alloc::{AllocError, Global};
use tw_types::{Body, Decision, Entry};

/// The byte of a snapshot at this place.
fn byte_at(place: usize) -> u8 {
    (place % 251) as u8
}

/// A snapshot of so many bytes.
fn snapshot(alloc: Global, total: usize) -> Result<Vec<u8>, AllocError> {
    let mut bytes = Vec::new(alloc);
    for place in 0..total {
        bytes.push(byte_at(place))?;
    }
    Ok(bytes)
}

/// Whether these are the bytes of a snapshot from an offset on.
fn are_of(bytes: &[u8], offset: usize) -> bool {
    let mut place = offset;
    for byte in bytes {
        if *byte != byte_at(place) {
            return false;
        }
        place = place.saturating_add(1);
    }
    true
}

/// The piece of a snapshot, where there is one: its group, its position and its offset in words, behind the length of the snapshot.
fn piece(alloc: Global, words: &mut Words<'_>) -> Result<Option<Body>, AllocError>
    ensures { IfOk result (λ found. IfSome found HasPiece) }
{
    let group = words.number((1 << 60) - 1);
    let position = words.number((1 << 60) - 1);
    let bytes = snapshot(alloc, words.count())?;
    let offset = words.number(4096) as u16;
    let is_length = (1..=4096).contains(&bytes.len());
    if group == 0 || !is_length || offset % 1024 != 0 || usize::from(offset) >= bytes.len() {
        words.are_wrong = true;
        return Ok(None);
    }
    Ok(Some(serve_chunk(group, position, &bytes, offset)))
}

/// A decision of a group whose list has so many updates, the last one in its window.
fn followed(words: &mut Words<'_>) -> Decision {
    let group = words.number((1 << 60) - 1);
    let length = words.number(u8::MAX.into());
    let mut d = Decision {
        group,
        low: length,
        ..Decision::default()
    };
    if length > 0 {
        d.low = length - 1;
        let _ = d.window.try_push(Entry::default());
    }
    d
}

/// The collection that the last `new` made.
pub fn new(alloc: Global) -> Result<Incoming, AllocError> {
    Incoming::new(alloc).or(Err(AllocError))
}

/// How long a piece is, and whether it has the bytes of the snapshot from its offset on.
fn shown_piece(alloc: Global, body: &Body) -> Result<String, AllocError> {
    match body {
        Body::State {
            total,
            offset,
            bytes,
            ..
        } => {
            let is_cut = are_of(bytes.as_slice(), usize::from(*offset));
            shown(alloc, &(*total, bytes.len(), is_cut))
        }
        _ => Ok(String::new(alloc)),
    }
}

/// `new`; `take` with the sender, the followed decision's group and length, and the piece; `bytes`, which tells how many there are and whether
/// they are the snapshot's; `clear`; and `serve` with the piece, which tells the total, how long the piece is, and whether it was cut right.
pub fn call(
    incoming: &mut Incoming,
    alloc: Global,
    words: &mut Words<'_>,
) -> Result<String, AllocError> {
    match words.among(&["new", "take", "bytes", "clear", "serve"]) {
        0 => {
            *incoming = new(alloc)?;
            Ok(String::new(alloc))
        }
        1 => {
            let from = words.byte(u8::MAX);
            let followed = followed(words);
            match piece(alloc, words)? {
                Some(state) => shown(alloc, &incoming.take(from, &followed, &state)),
                None => Ok(String::new(alloc)),
            }
        }
        2 => {
            let bytes = incoming.bytes();
            shown(alloc, &(bytes.len(), are_of(bytes, 0)))
        }
        3 => {
            incoming.clear();
            Ok(String::new(alloc))
        }
        4 => match piece(alloc, words)? {
            Some(body) => shown_piece(alloc, &body),
            None => Ok(String::new(alloc)),
        },
        _ => Ok(String::new(alloc)),
    }
}
