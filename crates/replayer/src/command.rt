//! The command that replays a schedule.

ghost use Rattle.tw_io.specs.Moments.{source_at, sink_at};
ghost use Rattle.replayer.specs.Command.{IsReplay};

use crate::steps::{Rooms, replay_lines};
use schedule_text::Status;
use std::alloc::Global;
use tw_io::{Sink, Source};

/// Reads a schedule line by line, and writes the row of each step before it reads the next line. A status other than `Ok` says why it
/// stopped, and the rows of the steps before that are written.
///
/// Whatever the schedule, its rows are safe, and each reading is near team time.
///
/// Where the source and the sink tell their bytes, the status and what is written are exactly those of the text.
/// `ReadFault` and `WriteFault` come only where the source or the sink failed, `WantOfMemory` may come at any time.
pub fn replay<S: Source, K: Sink>(alloc: Global, src: &mut S, sink: &mut K) -> Status
    ensures { IsReplay (source_at S.left S.faults src.old) (source_at S.left S.faults src.new) (sink_at K.taken K.faults sink.old) (sink_at K.taken K.faults sink.new) result }
{
    let Ok(mut rooms) = Rooms::new(alloc) else {
        return Status::WantOfMemory;
    };
    replay_lines(alloc, &mut rooms, src, sink)
}
