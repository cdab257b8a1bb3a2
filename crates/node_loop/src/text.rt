//! What a node knows of its team: who belongs to it, where each process is reached, and whose clock is team time.

ghost use Rattle.std.specs.Prelude.{◌≡◌, length};
ghost use Rattle.std.proofs.Props.{props};
ghost use Rattle.tw_types.specs.Team.{IsSound};

use arrayvec::ArrayVec;
use tw_io::Addr;
use tw_types::Team;

/// A node's text, as it was read.
#[derive(Drop)]
pub struct Text {
    pub team: Team,
    /// Where each process is reached, by its number.
    pub peers: ArrayVec<Addr, 15>,
    /// Whose clock is team time, if anybody's is.
    pub clock: Option<u8>,
    ghost sound: { IsSound team } by { Prim.hlevel props },
    ghost each: { length peers.items ≡ team.n },
}
