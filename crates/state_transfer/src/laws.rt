//! Laws of transfers. Each is the contract of a function that does nothing.

ghost use Rattle.std.specs.Prelude.{◌≡◌, ◌≤◌, ◌<◌, ◌%◌, ℕ, List, ◌++◌, ◌∷◌, [], length, None, false};
ghost use Rattle.tw_types.specs.declared.message.Decision.{Decision as DecisionSeen};
ghost use Rattle.tw_types.specs.declared.datagram.Body.{Body as BodySeen};
ghost use Rattle.tw_types.specs.Collections.{Piece, Whole, Part, is_foreign, after_pieces, piece_answer, collected_bytes};
ghost use Rattle.state_transfer.specs.Pieces.{piece_of, Serves};
ghost use Rattle.state_transfer.specs.Transfers.{IsCut, AreCuts, AllCame};

/// What is cut into pieces is put together again. Take, from one sender and in any order, pieces of one snapshot, some of them again, and
/// foreign ones between. Where one of each place came, the bytes are the snapshot (`bytes`), and the answer to the last one is that it is whole,
/// with its position (`whole`). Until then the answer to each is that others are wanting (`part`). What `serve_chunk` gives is such a piece
/// (`served`).
pub fn pieces_make_their_snapshot()
    ensures bytes { (followed : DecisionSeen) (from position : ℕ) (snapshot : List ℕ) (pieces : List Piece) → 1 ≤ length snapshot → length snapshot ≤ 4096 →
        AreCuts followed from position snapshot pieces → AllCame followed pieces (length snapshot) → collected_bytes (after_pieces followed pieces None) ≡ snapshot }
    ensures whole { (followed : DecisionSeen) (from position : ℕ) (snapshot : List ℕ) (pieces : List Piece) (last : Piece) → length snapshot ≤ 4096 →
        AreCuts followed from position snapshot pieces → IsCut from followed.group position snapshot last → is_foreign followed last ≡ false →
        AllCame followed (last ∷ pieces) (length snapshot) → piece_answer followed last (after_pieces followed pieces None) ≡ Whole position }
    ensures part { (followed : DecisionSeen) (from position : ℕ) (snapshot : List ℕ) (pieces : List Piece) (last : Piece) → length snapshot ≤ 4096 →
        AreCuts followed from position snapshot pieces → IsCut from followed.group position snapshot last → is_foreign followed last ≡ false →
        (AllCame followed (last ∷ pieces) (length snapshot) → ⊥) → piece_answer followed last (after_pieces followed pieces None) ≡ Part }
    ensures served { (from group position : ℕ) (snapshot : List ℕ) (offset : ℕ) (body : BodySeen) → offset % 1024 ≡ 0 → offset < length snapshot →
        Serves group position snapshot offset body → IsCut from group position snapshot (piece_of from body) }
{}
