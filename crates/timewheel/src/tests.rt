use crate::run::run;
use std::alloc::Global;
use tw_io::{
    BytesIn, BytesOut, ListClock, ReadFailed, Sink, Source, SteadyIn, SteadyLink, SteadyOut,
};
use tw_num::WantOfMemory;

/// A sound team of three processes with exact clocks: a start of process 0, a reference and a look.
const STEPS: &[u8] =
    b"team 3 7 0 1000 10000 20000 10000 50000 100000 400000 1104003 30000\n5 0 5 first\n5 0 5 ref 5 5\n6 0 6 look\n";

/// The rows of those steps.
const ROWS: &[u8] = b"1 0 5 - 0 0.0 0 0 start\n2 0 5 5 0 0.0 0 0 done\n3 0 5 6 0 0.0 0 0 look\n";

/// A schedule of fifteen steps that forms a group.
const GROUP: &[u8] = b"team 3 7 0 1000 10000 20000 10000 50000 100000 400000 1104003 30000\n\
    699990 0 699990 first\n699990 1 699990 first\n699990 2 699990 first\n\
    700000 0 700000 ref 700000 700000\n700000 1 700000 ref 700000 700000\n700000 2 700000 ref 700000 700000\n\
    700000 1 700000 tick\n701000 0 701000 recv 1\n701000 2 701000 recv 2\n702000 1 702000 recv 5\n702000 1 702000 recv 8\n\
    703000 2 703000 recv 12\n712000 2 712000 tick\n713000 1 713000 recv 14\n713000 0 713000 recv 13\n";

/// The rows of that schedule.
const GROUP_ROWS: &[u8] =
    b"1 0 699990 - 0 0.0 0 0 start\n2 1 699990 - 0 0.0 0 0 start\n3 2 699990 - 0 0.0 0 0 start\n\
    4 0 699990 700000 0 0.0 0 0 done\n5 1 699990 700000 0 0.0 0 0 done\n6 2 699990 700000 0 0.0 0 0 done\n\
    7 1 699990 700000 0 0.0 0 0 done\n+ send 1 to 0 election 7\n+ send 2 to 2 election 7\n+ send 3 to 0 sync\n+ send 4 to 2 sync\n\
    8 0 699990 701000 0 0.0 0 0 done\n+ send 5 to 1 promise 7\n+ send 6 to 1 sync\n+ send 7 to 2 sync\n\
    9 2 699990 701000 0 0.0 0 0 done\n+ send 8 to 1 promise 7\n+ send 9 to 0 sync\n+ send 10 to 1 sync\n\
    10 1 699990 702000 0 0.0 0 0 done\n11 1 699990 702000 0 7.0 0 0 done\n\
    + made 7.0 start 701001 low 0 len 0 members 0.699990 1.699990 2.699990\n+ send 11 to 0 decision 7.0\n+ send 12 to 2 decision 7.0\n\
    12 2 699990 703000 0 7.0 0 0 done\n13 2 699990 712000 1 7.1 0 0 done\n\
    + made 7.1 start 701001 low 0 len 0 members 0.699990 1.699990 2.699990\n+ send 13 to 0 decision 7.1\n+ send 14 to 1 decision 7.1\n\
    14 1 699990 713000 1 7.1 0 0 done\n15 0 699990 713000 1 7.1 0 0 done\n";

/// For each step how many bytes there are up to its line feed, and how many bytes of rows up to the end of its row.
const ENDS: [(u64, usize); 15] = [
    (90, 29),
    (112, 58),
    (134, 87),
    (168, 120),
    (202, 153),
    (236, 186),
    (257, 307),
    (280, 402),
    (303, 498),
    (326, 532),
    (349, 693),
    (373, 727),
    (394, 888),
    (418, 922),
    (442, 956),
];

/// A source that gives at most so many bytes at each read, and counts its reads. It does not tell what is left.
#[derive(Drop)]
struct Slow {
    source: BytesIn,
    size: usize,
    reads: u64,
}

impl Source for Slow {
    ghost use Rattle.std.specs.Prelude.{None};

    ghost left = { λ _. None };

    ghost faults = { λ s. ⟦<BytesIn as Source>⟧.faults s.source };

    fn read(&mut self, buf: &mut [u8]) -> Result<usize, ReadFailed> {
        self.reads = self.reads.saturating_add(1);
        let size = buf.len().min(self.size);
        self.source.read(&mut buf[..size])
    }
}

/// Whether a command of this word ends with a status of this text, which is empty for `Ok`.
fn has_status<S: Source, K: Sink>(
    alloc: Global,
    word: &str,
    source: &mut S,
    sink: &mut K,
    text: &str,
) -> Result<bool, WantOfMemory> {
    let words = [String::from_str(alloc, word)?];
    let mut clock = ListClock::new(alloc, &[])?;
    let mut link = SteadyLink::new(alloc, &[], &[])?;
    let status = run(alloc, &words, source, sink, &mut clock, &mut link);
    Ok(format!(in alloc; "{status}")?.as_str() == text)
}

/// Whether a replay of the steps ends with this status and has written so many bytes of the rows. These calls of its source
/// fail, and this one of its sink, which has so much room; calls are counted from 1.
fn ends(
    alloc: Global,
    reads: &[u64],
    room: usize,
    write: u64,
    text: &str,
    count: usize,
) -> Result<bool, WantOfMemory> {
    let mut source = BytesIn::new(alloc, STEPS, reads)?;
    let mut sink = BytesOut::new(alloc, room, &[write])?;
    let is_told = has_status(alloc, "replay", &mut source, &mut sink, text)?;
    let written = sink.bytes();
    Ok(is_told && written.len() == count && ROWS.starts_with(written))
}

/// Whether a word that is no command leaves the source and the sink as they are.
fn touches_nothing(alloc: Global) -> Result<bool, WantOfMemory> {
    let text = "usage: timewheel replay | rerun | node WHO first|again TURNS | demo SEED STEPS";
    let mut source = BytesIn::new(alloc, STEPS, &[])?;
    let mut sink = BytesOut::new(alloc, 99, &[])?;
    let is_usage = has_status(alloc, "", &mut source, &mut sink, text)?;
    let mut first = [0; 4];
    Ok(is_usage && sink.bytes().is_empty() && source.read(&mut first) == Ok(4) && first == *b"team")
}

/// Whether a replay over forms that never fail is Ok.
fn is_steady(alloc: Global) -> Result<bool, WantOfMemory> {
    let mut source = SteadyIn::new(alloc, STEPS)?;
    has_status(alloc, "replay", &mut source, &mut SteadyOut::new(), "")
}

/// Whether a replay of a text that is read in pieces of at most so many bytes ends with this status and has written these rows.
/// This read fails, counted from 1.
fn gives(
    alloc: Global,
    text: &[u8],
    size: usize,
    read: u64,
    status: &str,
    rows: &[u8],
) -> Result<bool, WantOfMemory> {
    let source = BytesIn::new(alloc, text, &[read])?;
    let mut source = Slow {
        source,
        size,
        reads: 0,
    };
    let mut sink = BytesOut::new(alloc, 2_000, &[])?;
    let is_told = has_status(alloc, "replay", &mut source, &mut sink, status)?;
    Ok(is_told && sink.bytes() == rows)
}

/// Whether the rows of the lines that were read whole are written where this read of a byte fails.
fn writes_what_was_read(alloc: Global, text: &[u8], read: u64) -> Result<bool, WantOfMemory> {
    let mut written = 0;
    for (line, row) in ENDS {
        if line < read {
            written = row;
        }
    }
    let rows = GROUP_ROWS.get(..written).unwrap_or(&[]);
    gives(alloc, text, 1, read, "read failed", rows)
}

/// How many reads of a byte there were when the first write failed, or 0 where a replay ends otherwise.
fn reads_before_a_row(alloc: Global) -> Result<u64, WantOfMemory> {
    let source = BytesIn::new(alloc, STEPS, &[])?;
    let mut source = Slow {
        source,
        size: 1,
        reads: 0,
    };
    let mut sink = BytesOut::new(alloc, 99, &[1])?;
    let is_told = has_status(alloc, "replay", &mut source, &mut sink, "write failed")?;
    Ok(if is_told { source.reads } else { 0 })
}

#[test]
fn texts_are_read_in_pieces_of_any_size(rt: HostRuntime) -> Result<(), WantOfMemory> {
    let alloc = rt.alloc();
    let table: [(&[u8], &str, &[u8]); 11] = [
        (STEPS, "", ROWS),
        (
            b"team 3 7 0 1000 10000 20000 10000 50000 100000 400000 1104003 30000\n",
            "",
            b"",
        ),
        (
            b"team 3 7 0 1000 10000 20000 10000 50000 100000 400000 1104003 30000",
            "",
            b"",
        ),
        (b"", "line 1: grammar", b""),
        (
            b"team 3 7 0 1000 10000 20000 10000 50000 100000 400000 1104003 30000\n5 0 5 first\n5000 0 5000 ref 4000 5998\n",
            "",
            b"1 0 5 - 0 0.0 0 0 start\n2 0 5 4999 0 0.0 0 0 done\n",
        ),
        (
            b"team 3 7 0 1000 10000 20000 10000 50000 100000 400000 1104003 30000\n5 0 5 first\n5000 0 5000 ref 4000 5999",
            "",
            b"1 0 5 - 0 0.0 0 0 start\n2 0 5 - 0 0.0 0 0 done\n",
        ),
        (
            b"team 3 7 0 1000 10000 20000 10000 50000 100000 400000 1104003 30000\n5 0 5 first\n5000 0 5000 ref 4990 6988\n5001 0 5001 ref 4500 5001\n6000 0 6000 look\n",
            "",
            b"1 0 5 - 0 0.0 0 0 start\n2 0 5 5989 0 0.0 0 0 done\n3 0 5 5989 0 0.0 0 0 done\n4 0 5 5995 0 0.0 0 0 look\n",
        ),
        (
            b"team 3 7 100 1000 10000 20000 10000 50000 100000 400000 1200000 30000\n0 0 0 first\n10000 0 10002 look\n",
            "",
            b"1 0 0 - 0 0.0 0 0 start\n2 0 0 - 0 0.0 0 0 look\n",
        ),
        (
            b"team 3 7 100 1000 10000 20000 10000 50000 100000 400000 1200000 30000\n0 0 0 first\n10000 0 9998 look\n",
            "",
            b"1 0 0 - 0 0.0 0 0 start\n2 0 0 - 0 0.0 0 0 look\n",
        ),
        (
            b"team 3 7 100 1000 10000 20000 10000 50000 100000 400000 1200000 30000\n0 0 0 first\n10000 0 10003 look\n",
            "line 3: drift",
            b"1 0 0 - 0 0.0 0 0 start\n",
        ),
        (
            b"team 3 7 100 1000 10000 20000 10000 50000 100000 400000 1200000 30000\n0 0 0 first\n10000 0 9997 look",
            "line 3: drift",
            b"1 0 0 - 0 0.0 0 0 start\n",
        ),
    ];
    for (text, status, rows) in table {
        for size in [1, 2, 9_000, 9_001, usize::MAX] {
            assert!(rt; gives(alloc, text, size, 0, status, rows)?);
        }
    }
    Ok(())
}

#[test]
fn lines_that_were_read_have_their_rows(rt: HostRuntime) -> Result<(), WantOfMemory> {
    let alloc = rt.alloc();
    for read in 1..=443 {
        assert!(rt; writes_what_was_read(alloc, GROUP, read)?);
    }
    let open = GROUP.get(..441).unwrap_or(&[]);
    assert!(rt; writes_what_was_read(alloc, open, 442)?);
    assert!(rt; gives(alloc, open, 1, 443, "", GROUP_ROWS)?);
    Ok(())
}

#[test]
fn nothing_is_read_behind_the_end(rt: HostRuntime) -> Result<(), WantOfMemory> {
    let alloc = rt.alloc();
    let bad = b"team 2 7 0 1000 10000 20000 10000 50000 100000 400000 1104003 30000\n";
    assert!(rt; gives(alloc, bad, 1, 69, "bad team: size", b"")?);
    let text =
        b"team 3 7 0 1000 10000 20000 10000 50000 100000 400000 1104003 30000\n5 0 5 first\nlook\n";
    assert!(rt;
        gives(
            alloc,
            text,
            1,
            86,
            "line 3: grammar",
            b"1 0 5 - 0 0.0 0 0 start\n"
        )?
    );
    assert!(rt; reads_before_a_row(alloc)? == 80);
    Ok(())
}

#[test]
fn commands_end_as_their_forms_let_them(rt: HostRuntime) -> Result<(), WantOfMemory> {
    let alloc = rt.alloc();
    let all = ROWS.len();
    let table = [
        ([1, 0], 99, 0, "read failed", 0),
        ([2, 0], 99, 0, "read failed", all),
        ([1, 2], 99, 0, "read failed", 0),
        ([3, 0], 99, 0, "", all),
        ([0, 0], 99, 0, "", all),
        ([0, 0], 99, 1, "write failed", 0),
        ([0, 0], 30, 2, "write failed", 24),
        ([0, 0], 30, 3, "write failed", 30),
        ([0, 0], 99, 2, "write failed", 24),
        ([0, 0], 99, 3, "write failed", 47),
        ([0, 0], 99, 4, "", all),
        ([0, 0], all, 0, "", all),
    ];
    for (reads, room, write, text, count) in table {
        assert!(rt; ends(alloc, &reads, room, write, text, count)?);
    }
    for room in 0..all {
        assert!(rt; ends(alloc, &[], room, 0, "write failed", room)?);
    }
    assert!(rt; touches_nothing(alloc)?);
    assert!(rt; is_steady(alloc)?);
    Ok(())
}
