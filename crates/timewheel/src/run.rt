//! The top call: words to a command. What a user may rely on is said by its clauses.

ghost use Rattle.std.specs.Prelude.{◌≡◌, ◌↔◌, ◌⊎◌, map, codes, string_bytes, IsTrue};
ghost use Rattle.tw_io.specs.Moments.{source_at, sink_at};
ghost use Rattle.replayer.specs.Command.{IsReplay};
ghost use Rattle.timewheel.specs.Top.{NamesReplay, IsAnswerOfReplay};

use replayer::replay;
use schedule_text::Status;
use std::alloc::Global;
use tw_io::{Clock, Link, Sink, Source};

/// Whether the words are those of the command `replay`.
fn is_replay(words: &[String]) -> bool
    ensures { IsTrue result ↔ NamesReplay (map string_bytes words.now) }
{
    match words {
        [word] => names_replay(word.as_str()),
        _ => false,
    }
}

fn names_replay(word: &str) -> bool
    ensures { IsTrue result ↔ (word.now ≡ codes "replay") }
{
    word == "replay"
}

/// Runs a command over a source, a sink, a clock and a link. `replay` reads a schedule and writes its rows, one for each
/// step. A status other than `Ok` says why it stopped, and the rows of the steps before that are written.
///
/// Whatever the schedule, its rows are safe, and each reading is near team time: `ok` and `answered` of `IsReplay` say so of
/// the rows that are written.
///
/// Where the source and the sink tell their bytes, the status and what is written are exactly those of the text.
/// `ReadFault` and `WriteFault` come only where the source or the sink failed, `WantOfMemory` may come at any time.
pub fn run<S: Source, K: Sink, C: Clock, L: Link>(
    alloc: Global,
    words: &[String],
    src: &mut S,
    sink: &mut K,
    clock: &mut C,
    link: &mut L,
) -> Status
    // The words are a command's, or nothing is read or written.
    ensures command { (result ≡ Status.Usage) ⊎ NamesReplay (map string_bytes words.now) }
    ensures usage { (result ≡ Status.Usage) ↔ (NamesReplay (map string_bytes words.now) → ⊥) }
    ensures untouched { result ≡ Status.Usage → (src.new ≡ src.old) × (sink.new ≡ sink.old) }

    // The command `replay`: what each status says of the text, which rows are written, that they are safe, and why it fails.
    ensures replay { NamesReplay (map string_bytes words.now) →
        IsReplay (source_at S.left S.faults src.old) (source_at S.left S.faults src.new) (sink_at K.taken K.faults sink.old) (sink_at K.taken K.faults sink.new) result }
    ensures others { IsAnswerOfReplay result }

    // No command has to do with a clock or a link.
    ensures clock { clock.new ≡ clock.old }
    ensures link { link.new ≡ link.old }
{
    if !is_replay(words) {
        return Status::Usage;
    }
    replay(alloc, src, sink)
}
