//! Lines of a source that is read in pieces of any size.

ghost use Rattle.std.specs.Prelude.{◌≤◌, ◌+◌, vec_len};

use crate::put::put;
use crate::{ReadFailed, Source};
use std::alloc::Global;
use tw_num::WantOfMemory;

/// The most bytes that are asked of a source at once, beside those of a line.
const PIECE: usize = 4_096;

/// What a reader found at the front of what it reads. The line's bytes are those of `LineReader::line`.
#[derive(Clone, Copy, Debug, PartialEq, Eq)]
pub enum Line {
    /// A line, whose line feed was read.
    Ended,
    /// The last line, which has no line feed.
    Last,
    /// A line of more bytes than a line may have. Nothing is taken of it.
    Longer,
}

/// A reader of lines. Its room is that of one line and one piece, and is taken when it is made.
#[derive(Drop)]
pub struct LineReader {
    room: Vec<u8>,
    start: usize,
    end: usize,
    line_start: usize,
    line_end: usize,
    limit: usize,
    ghost order: { start ≤ end },
    ghost within: { end ≤ vec_len room },
    ghost line_order: { line_start ≤ line_end },
    ghost line_within: { line_end ≤ vec_len room },
    ghost short: { line_end ≤ line_start + limit },
    ghost roomy: { limit + 4096 ≤ vec_len room },
}

impl LineReader {
    ghost use Rattle.std.specs.Prelude.{ℕ, ◌<◌, ◌≡◌, ◌==◌, ◌++◌, [], List, Some, None, true, false, length, position, IfOk, IfSome, OnErr};
    ghost use Rattle.tw_io.specs.Faults.{IsRisen};
    ghost use Rattle.tw_io.specs.Lines.{IsOneLine};
    ghost use Rattle.tw_io.specs.LineReader.{held, line_given, IsNextLine};

    /// A reader of lines of at most `limit` bytes, their line feeds not counted.
    pub fn new(alloc: Global, limit: usize) -> Result<LineReader, WantOfMemory>
        ensures held { IfOk result (λ reader. held reader ≡ []) }
        ensures limit { IfOk result (λ reader. reader.limit ≡ limit) }
    {
        let room = limit.checked_add(PIECE).ok_or(WantOfMemory)?;
        Ok(LineReader {
            room: vec![in alloc; 0; room]?,
            start: 0,
            end: 0,
            line_start: 0,
            line_end: 0,
            limit,
        })
    }

    /// The bytes of the line that was given last, without its line feed.
    pub fn line(&self) -> &[u8]
        ensures { result.now ≡ line_given self.now }
    {
        &self.room[self.line_start..self.line_end]
    }

    /// The next line of the source: of what is held, and then of what is read. None where there is none. `Longer` where it has
    /// more than `limit` bytes: nothing is taken then, and the next call tells it again.
    ///
    /// Fails only where the source fails in this call. What was read before stays held, and the next call goes on there: it is no
    /// whole line, and may still become one.
    pub fn next<S: Source>(&mut self, src: &mut S) -> Result<Option<Line>, ReadFailed>
        ensures next { IfOk result (λ answer. (bytes : List ℕ) → S.left src.old ≡ Some bytes →
            (rest : List ℕ) × (S.left src.new ≡ Some rest) × IsNextLine self.old.limit (held self.old ++ bytes) answer (line_given self.new) (held self.new ++ rest)) }
        ensures err { OnErr result ((bytes : List ℕ) → S.left src.old ≡ Some bytes →
            (rest : List ℕ) × (S.left src.new ≡ Some rest) × (held self.old ++ bytes ≡ held self.new ++ rest)) }
        ensures kept { OnErr result ((more : List ℕ) × (held self.new ≡ held self.old ++ more)) }
        ensures open_line { OnErr result (IsOneLine (held self.new)) }
        ensures short { OnErr result (length (held self.new) ≤ self.old.limit) }
        ensures within { length (line_given self.new) ≤ self.old.limit }
        ensures limit { self.new.limit ≡ self.old.limit }
        ensures untold { S.left src.old ≡ None → S.left src.new ≡ None }
        ensures monotone { S.faults src.old ≤ S.faults src.new }
        ensures cause { OnErr result (IsRisen (S.faults src.old) (S.faults src.new)) }
    {
        loop {
            if let Some(end) = self.line_feed() {
                return Ok(Some(self.up_to(end)));
            }
            if self.end - self.start > self.limit {
                return Ok(Some(Line::Longer));
            }
            if self.fill(src)? == 0 {
                return Ok(self.last());
            }
        }
    }

    /// Whether nothing is left, neither held nor in the source. Where something is held the source isn't asked, else it is read
    /// once, and what it gives is held.
    ///
    /// Fails only where the source fails in this call. Nothing is held then.
    pub fn is_at_end<S: Source>(&mut self, src: &mut S) -> Result<bool, ReadFailed>
        ensures text { (bytes : List ℕ) → S.left src.old ≡ Some bytes → (rest : List ℕ) × (S.left src.new ≡ Some rest) × (held self.old ++ bytes ≡ held self.new ++ rest) }
        ensures end { IfOk result (λ answer. answer ≡ true → (held self.new ≡ []) × ((bytes : List ℕ) → S.left src.old ≡ Some bytes → S.left src.new ≡ Some [])) }
        ensures more { IfOk result (λ answer. answer ≡ false → 0 < length (held self.new)) }
        ensures err { OnErr result (held self.new ≡ []) }
        ensures limit { self.new.limit ≡ self.old.limit }
        ensures untold { S.left src.old ≡ None → S.left src.new ≡ None }
        ensures monotone { S.faults src.old ≤ S.faults src.new }
        ensures cause { OnErr result (IsRisen (S.faults src.old) (S.faults src.new)) }
    {
        if self.start < self.end {
            return Ok(false);
        }
        Ok(self.fill(src)? == 0)
    }

    /// Where the first line feed stands in what is held.
    fn line_feed(&self) -> Option<usize>
        ensures exact { result ≡ position (λ b. b == 10) (held self.now) }
        ensures bound { IfSome result (λ end. end < length (held self.now)) }
    {
        self.room[self.start..self.end]
            .iter()
            .position(|byte| *byte == b'\n')
    }

    /// Gives the line before the line feed that stands there.
    fn up_to(&mut self, end: usize) -> Line
        requires bound { end < length (held self.old) }
        requires first { position (λ b. b == 10) (held self.old) ≡ Some end }
        ensures next { (rest : List ℕ) → IsNextLine self.old.limit (held self.old ++ rest) (Some result) (line_given self.new) (held self.new ++ rest) }
        ensures limit { self.new.limit ≡ self.old.limit }
    {
        if end > self.limit {
            return Line::Longer;
        }
        self.line_start = self.start;
        self.line_end = self.start + end;
        self.start += end + 1;
        Line::Ended
    }

    /// Gives all that is held as the last line, if there is any.
    fn last(&mut self) -> Option<Line>
        requires one { position (λ b. b == 10) (held self.old) ≡ None }
        requires short { length (held self.old) ≤ self.old.limit }
        ensures next { IsNextLine self.old.limit (held self.old) result (line_given self.new) [] }
        ensures held { held self.new ≡ [] }
        ensures limit { self.new.limit ≡ self.old.limit }
    {
        if self.start == self.end {
            return None;
        }
        self.line_start = self.start;
        self.line_end = self.end;
        self.start = self.end;
        Some(Line::Last)
    }

    /// Moves what is held to the front of the room.
    fn move_to_front(&mut self)
        ensures held { held self.new ≡ held self.old }
        ensures start { self.new.start ≡ 0 }
        ensures limit { self.new.limit ≡ self.old.limit }
    {
        self.room.copy_within(self.start..self.end, 0);
        self.end -= self.start;
        self.start = 0;
    }

    /// Puts a piece behind what is held.
    fn keep(&mut self, piece: &[u8])
        requires short { length (held self.old) ≤ self.old.limit }
        requires piece { length piece.now ≤ 4096 }
        ensures held { held self.new ≡ held self.old ++ piece.now }
        ensures limit { self.new.limit ≡ self.old.limit }
    {
        self.move_to_front();
        put(&mut self.room, self.end, piece);
        self.end += piece.len();
    }

    /// Reads a piece more behind what is held. 0 at the end of the source.
    fn fill<S: Source>(&mut self, src: &mut S) -> Result<usize, ReadFailed>
        requires { length (held self.old) ≤ self.old.limit }
        ensures text { (bytes : List ℕ) → S.left src.old ≡ Some bytes → (rest : List ℕ) × (S.left src.new ≡ Some rest) × (held self.old ++ bytes ≡ held self.new ++ rest) }
        ensures end { IfOk result (λ count. count ≡ 0 → (bytes : List ℕ) → S.left src.old ≡ Some bytes → S.left src.new ≡ Some []) }
        ensures more { IfOk result (λ count. (more : List ℕ) × (held self.new ≡ held self.old ++ more) × (length more ≡ count)) }
        ensures err { OnErr result (held self.new ≡ held self.old) }
        ensures limit { self.new.limit ≡ self.old.limit }
        ensures untold { S.left src.old ≡ None → S.left src.new ≡ None }
        ensures monotone { S.faults src.old ≤ S.faults src.new }
        ensures cause { OnErr result (IsRisen (S.faults src.old) (S.faults src.new)) }
    {
        let mut piece = [0; PIECE];
        let count = src.read(&mut piece)?;
        self.keep(&piece[..count]);
        Ok(count)
    }
}
