//! A snapshot cut into pieces.

ghost use Rattle.std.specs.Prelude.{◌≡◌, ◌≤◌, ◌<◌, ◌^◌, ◌%◌, length};
ghost use Rattle.tw_types.specs.Collections.{cut_at};
ghost use Rattle.state_transfer.specs.Pieces.{HasPiece, Serves};

use arrayvec::ArrayVec;
use tw_types::Body;

/// So many bytes a piece has, but for the last one.
const PIECE: usize = 1024;

/// A copy of some bytes.
fn copied(bytes: &[u8]) -> ArrayVec<u8, 1024>
    requires { length bytes.now ≤ 1024 }
    ensures { result.items ≡ bytes.now }
{
    let mut copy = ArrayVec::new();
    let _ = copy.try_extend_from_slice(bytes);
    copy
}

/// The piece of a snapshot that begins at an offset, as the body of a datagram: the sender's group, how many updates the snapshot has in it,
/// its length, the offset, and the bytes from there on, 1,024 or what is left. A snapshot has 1 to 4,096 bytes, and an offset is a multiple of
/// 1,024 below its length.
pub fn serve_chunk(group: u64, position: u64, snapshot: &[u8], offset: u16) -> Body
    requires least { 1 ≤ length snapshot.now }
    requires most { length snapshot.now ≤ 4096 }
    requires aligned { offset % 1024 ≡ 0 }
    requires within { offset < length snapshot.now }
    ensures exact { Serves group position snapshot.now offset result }
    ensures fits { 1 ≤ group → group < 2 ^ 60 → position < 2 ^ 60 → HasPiece result }
{
    let start = usize::from(offset);
    let end = (start + PIECE).min(snapshot.len());
    Body::State {
        group,
        position,
        total: snapshot.len() as u16,
        offset,
        bytes: copied(&snapshot[start..end]),
    }
}
