//! The pieces of a snapshot that came so far.

ghost use Rattle.std.specs.Prelude.{◌≡◌, ◌≤◌, ◌<◌, ◌+◌, ◌*◌, ◌/◌, ◌++◌, ◌==◌, ◌&&◌, ℕ, Bool, List, [], length, take, drop, set, true, Option, Some, None, IfOk};
ghost use Rattle.std.specs.List.{list_all};
ghost use Rattle.tw_types.specs.Collections.{Piece, piece_size, joined, is_foreign, after_piece, piece_answer, collected_bytes};
ghost use Rattle.state_transfer.specs.Pieces.{piece_of, HasPiece};
ghost use Rattle.state_transfer.specs.Incoming.{collected, IsSized, IsOf, is_kept};
ghost use Rattle.state_transfer.specs.Answers.{taken_as};

use std::alloc::Global;
use std::marker::Model;
use tw_num::WantOfMemory;
use tw_types::{Body, Decision};

/// So many bytes a piece has, but for the last one.
const PIECE: usize = 1024;

/// So many bytes a snapshot has at most.
const ROOM: usize = 4096;

/// Of which snapshot a collection is: who sends it, after how many updates it was taken, and how many bytes it has.
#[derive(Clone, Copy)]
pub struct Of {
    pub from: u8,
    pub position: u64,
    pub total: u16,
}

/// What a piece comes to.
#[derive(Clone, Copy, Debug)]
pub enum Take {
    /// It joined the collection, and others are wanting.
    Part,
    /// None is wanting. The snapshot was taken after so many updates.
    Whole(u64),
    /// It is of another group than the one that is followed, or of a longer list, and changes nothing.
    Foreign,
}

/// A collection of the pieces of one snapshot. Contracts see it as who sends it, its position, its total, and at each place the piece, or
/// none; or as none, where nothing is collected.
#[derive(Drop)]
pub struct Incoming {
    of: Option<Of>,
    /// Which places have their piece.
    marks: [bool; 4],
    /// The bytes of the pieces, each at its place.
    room: Vec<u8>,
}

impl Model for Incoming {
    ghost use Rattle.std.specs.Prelude.{◌≡◌, Option, length};
    ghost use Rattle.tw_types.specs.Collections.{Collection};
    ghost use Rattle.state_transfer.specs.Incoming.{collected, IsSized};

    ghost Value = { Option Collection };

    ghost view = { λ c. collected c.of c.marks c.room.items };

    ghost invariant = { λ c. (length c.room.items ≡ 4096) × (length c.marks ≡ 4) × IsSized c.of };
}

impl Incoming {
    /// Nothing is collected. All the room that it ever needs is taken here.
    pub fn new(alloc: Global) -> Result<Self, WantOfMemory>
        ensures { IfOk result (λ c. c ≡ None) }
    {
        Ok(Incoming {
            of: None,
            marks: [false; 4],
            room: vec![in alloc; 0; ROOM]?,
        })
    }

    /// Takes a piece of a snapshot that came from `from` to a process that follows a decision. `Foreign` comes exactly where it is of another
    /// group than that decision, or of a list that is longer, and then nothing changes. Else it joins the collection, or begins one where
    /// that is of another sender, position or total; and `Whole` comes exactly where no piece is wanting then. The collection stays.
    pub fn take(&mut self, from: u8, followed: &Decision, state: &Body) -> Take
        requires piece { HasPiece state.now }
        ensures answer { taken_as result ≡ piece_answer followed.now (piece_of from state.now) self.old }
        ensures collection { self.new ≡ after_piece followed.now (piece_of from state.now) self.old }
    {
        let Body::State {
            group,
            position,
            total,
            offset,
            bytes,
        } = state
        else {
            return Take::Foreign;
        };
        if is_foreign(followed, *group, *position) {
            return Take::Foreign;
        }
        let of = Of {
            from,
            position: *position,
            total: *total,
        };
        join(&mut self.of, &mut self.marks, of);
        let offset = usize::from(*offset);
        put(&mut self.room, offset, bytes.as_slice());
        self.marks[offset / PIECE] = true;
        if is_whole(&self.marks, *total) {
            Take::Whole(*position)
        } else {
            Take::Part
        }
    }

    /// The snapshot, where no piece is wanting, and else nothing.
    pub fn bytes(&self) -> &[u8]
        ensures { result.now ≡ collected_bytes self.now }
    {
        match self.of {
            Some(of) if is_whole(&self.marks, of.total) => &self.room[..usize::from(of.total)],
            _ => &[],
        }
    }

    /// Nothing is collected any more.
    pub fn clear(&mut self)
        ensures { self.new ≡ None }
    {
        self.of = None;
    }
}

/// Whether a piece is of another group than the decision, or of a longer list.
fn is_foreign(followed: &Decision, group: u64, position: u64) -> bool
    ensures { (p : Piece) → p.group ≡ group → p.position ≡ position → result ≡ is_foreign followed.now p }
{
    let entries = followed.window.len() as u64;
    group != followed.group || position.saturating_sub(followed.low) > entries
}

/// Whether the collection that is there is of this snapshot.
fn is_kept(kept: Option<Of>, of: Of) -> bool
    ensures { result ≡ is_kept kept of }
{
    match kept {
        None => false,
        Some(kept) => {
            kept.from == of.from && kept.position == of.position && kept.total == of.total
        }
    }
}

/// Begins a collection, unless that of this snapshot is there.
fn join(kept: &mut Option<Of>, marks: &mut [bool; 4], of: Of)
    ensures of { kept.new ≡ Some of }
    ensures marks { length marks.new ≡ 4 }
    ensures joined { (p : Piece) (room : List ℕ) → IsOf of p → collected kept.new marks.new room ≡ Some (joined p (collected kept.old marks.old room)) }
{
    if !is_kept(*kept, of) {
        *kept = Some(of);
        *marks = [false; 4];
    }
}

/// Puts a piece at its place.
fn put(room: &mut Vec<u8>, offset: usize, bytes: &[u8])
    requires { offset + length bytes.now ≤ length room.old.items }
    ensures { room.new.items ≡ take offset room.old.items ++ (bytes.now ++ drop (offset + length bytes.now) room.old.items) }
{
    let end = offset + bytes.len();
    room[offset..end].copy_from_slice(bytes);
}

/// Whether each place of a snapshot of this length is marked.
fn is_whole(marks: &[bool; 4], total: u16) -> bool
    requires { total ≤ 4096 }
    ensures { result ≡ list_all (λ mark. mark) (take ((total + 1023) / 1024) marks.now) }
{
    let count = usize::from(total).div_ceil(PIECE);
    marks[..count].iter().all(|&mark| mark)
}
