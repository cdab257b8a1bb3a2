//! Calls of `tw_io`.
//!
//! `source`, `sink`, `clock` and `link` make the forms in memory, and `steady_source` and `steady_sink` those that never
//! fail; `pipe` makes the system's forms over the ends of a pipe, and `broken` over a reader and a writer that fail each
//! time. `slow_source` gives at most so many bytes at each read, and `long_source` has a row of one byte before its bytes.
//! `lines` makes a reader of lines, which `line` and `at_end` ask, and `list_link` a link that keeps what is sent. `read`, `write`, `now`, `bind`, `send`, `send_row`,
//! `recv`, `sent` and `line` call what was made last.

ghost use Rattle.std.specs.Prelude.{◌≡◌, ◌≤◌, true, length};
ghost use Rattle.tw_io.specs.Arrivals.{bytes_of_all};

use crate::copying::{Copied, copy};
use call_words::{Calls, Words, shown};
use std::alloc::{AllocError, Global};
use std::io;
use std::io::{PipeReader, PipeWriter};
use tw_io::{
    Addr, BytesIn, BytesOut, Came, Clock, Line, LineReader, Link, LinkFailed, ListClock, ListLink,
    ReadFailed, Sink, Source, StandardInput, StandardOutput, SteadyIn, SteadyLink, SteadyOut,
    WriteFailed,
};

/// Where a link is bound, and where all comes from and goes to.
const HOME: Addr = Addr {
    ip: [127, 0, 0, 1],
    port: 4000,
};

/// A reader and a writer of the system that fail each time.
#[derive(Drop)]
struct Broken;

impl io::Read for Broken {
    fn read(&mut self, _buf: &mut [u8]) -> io::Result<usize> {
        Err(io::Error::from(io::ErrorKind::BrokenPipe))
    }
}

impl io::Write for Broken {
    fn write(&mut self, _buf: &[u8]) -> io::Result<usize> {
        Err(io::Error::from(io::ErrorKind::BrokenPipe))
    }

    fn flush(&mut self) -> io::Result<()> {
        Ok(())
    }
}

/// A source that gives at most so many bytes at each read, and one at least. It does not tell what is left.
#[derive(Drop)]
struct Slow {
    source: BytesIn,
    size: usize,
}

impl Source for Slow {
    ghost use Rattle.std.specs.Prelude.{None};

    ghost left = { λ _. None };

    ghost faults = { λ s. ⟦<BytesIn as Source>⟧.faults s.source };

    fn read(&mut self, buf: &mut [u8]) -> Result<usize, ReadFailed> {
        let size = buf.len().min(self.size);
        self.source.read(&mut buf[..size])
    }
}

#[derive(Drop)]
enum Input {
    Listed(BytesIn),
    Slow(Slow),
    Steady(SteadyIn),
    Pipe(StandardInput<PipeReader>),
    Broken(StandardInput<Broken>),
}

#[derive(Drop)]
enum Output {
    Listed(BytesOut),
    Steady(SteadyOut),
    Pipe(StandardOutput<PipeWriter>),
    Broken(StandardOutput<Broken>),
}

#[derive(Drop)]
enum Way {
    Steady(SteadyLink),
    Listed(ListLink),
}

/// What a read of at most so many bytes gives, at most eight.
fn read_from<S: Source>(alloc: Global, source: &mut S, size: usize) -> Result<String, AllocError>
    requires { size ≤ 8 }
{
    let mut buf = [0; 8];
    let given = match source.read(&mut buf[..size]) {
        Ok(count) => Ok(buf.get(..count).unwrap_or(&buf)),
        Err(fault) => Err(fault),
    };
    shown(alloc, &given)
}

fn write_to<K: Sink>(sink: &mut K, piece: &[u8]) -> Result<usize, WriteFailed> {
    sink.write(piece)
}

fn now_of<C: Clock>(clock: &mut C) -> u64 {
    clock.now()
}

fn bind_to<L: Link>(link: &mut L) -> Result<(), LinkFailed> {
    link.bind(HOME)
}

fn send_on<L: Link>(link: &mut L, bytes: &[u8]) -> Result<(), LinkFailed> {
    link.send(HOME, bytes)
}

/// What has come, and how many bytes of a buffer of zeros are this one then.
fn recv_from<L: Link>(alloc: Global, link: &mut L, filled: u8) -> Result<String, AllocError> {
    let mut buf = [0; 4096];
    let came = link.recv(&mut buf, 0);
    let mut count = 0u64;
    for byte in buf {
        if byte == filled {
            count = count.saturating_add(1);
        }
    }
    format!(in alloc; "{came:?} {count}")
}

/// Whether these have so many bytes together.
fn have_bytes(arrivals: &[Option<Came>], count: usize) -> bool
    ensures { result ≡ true → bytes_of_all arrivals.now ≡ count }
{
    match arrivals {
        [] => count == 0,
        [None, rest @ ..] => have_bytes(rest, count),
        [Some(came), rest @ ..] => came.len <= count && have_bytes(rest, count - came.len),
    }
}

/// The next word as numbers with commas between them, or `-` for none.
fn numbers(alloc: Global, words: &mut Words<'_>) -> Result<Vec<u64>, AllocError> {
    let mut numbers = Vec::new(alloc);
    let word = words.word();
    if word != "-" {
        for part in word.split(',') {
            numbers.push(words.number_of(part, u64::MAX))?;
        }
    }
    Ok(numbers)
}

/// The same as bytes.
fn bytes(alloc: Global, words: &mut Words<'_>) -> Result<Vec<u8>, AllocError> {
    let mut bytes = Vec::new(alloc);
    let word = words.word();
    if word != "-" {
        for part in word.split(',') {
            bytes.push(words.number_of(part, u8::MAX.into()) as u8)?;
        }
    }
    Ok(bytes)
}

/// The next word as the lengths of what arrives, with `-` where nothing does.
fn arrivals(alloc: Global, words: &mut Words<'_>) -> Result<Vec<Option<Came>>, AllocError> {
    let mut items = Vec::new(alloc);
    for part in words.word().split(',') {
        let mut item = None;
        if part != "-" {
            let len = words.number_of(part, u16::MAX.into()) as usize;
            item = Some(Came { from: HOME, len });
        }
        items.push(item)?;
    }
    Ok(items)
}

// Memory is all that making a form in memory can want.

/// A source of the next word's bytes, and of the calls that fail.
fn source_of(alloc: Global, words: &mut Words<'_>) -> Result<Input, AllocError> {
    let bytes = bytes(alloc, words)?;
    let failing = numbers(alloc, words)?;
    match BytesIn::new(alloc, &bytes, &failing) {
        Ok(source) => Ok(Input::Listed(source)),
        Err(_) => Err(AllocError),
    }
}

/// A source of a row of bytes `x` and then the next word's bytes, of the calls that fail, and of how much it gives at each.
fn slow_source_of(alloc: Global, row: usize, words: &mut Words<'_>) -> Result<Input, AllocError> {
    let mut text = vec![in alloc; b'x'; row]?;
    text.extend_from_slice(&bytes(alloc, words)?)?;
    let failing = numbers(alloc, words)?;
    let size = words.count().max(1);
    match BytesIn::new(alloc, &text, &failing) {
        Ok(source) => Ok(Input::Slow(Slow { source, size })),
        Err(_) => Err(AllocError),
    }
}

fn new_reader(alloc: Global, limit: usize) -> Result<LineReader, AllocError> {
    LineReader::new(alloc, limit).or(Err(AllocError))
}

/// What the next line is, with its length, and its bytes where they are few.
fn next_line<S: Source>(
    alloc: Global,
    reader: &mut LineReader,
    source: &mut S,
) -> Result<String, AllocError> {
    let next = reader.next(source);
    if !matches!(next, Ok(Some(Line::Ended | Line::Last))) {
        return shown(alloc, &next);
    }
    let line = few(alloc, reader.line())?;
    format!(in alloc; "{next:?} {line}")
}

fn is_at_end<S: Source>(reader: &mut LineReader, source: &mut S) -> Result<bool, ReadFailed> {
    reader.is_at_end(source)
}

fn steady_source_of(alloc: Global, words: &mut Words<'_>) -> Result<Input, AllocError> {
    let bytes = bytes(alloc, words)?;
    match SteadyIn::new(alloc, &bytes) {
        Ok(source) => Ok(Input::Steady(source)),
        Err(_) => Err(AllocError),
    }
}

fn sink_of(alloc: Global, words: &mut Words<'_>) -> Result<Output, AllocError> {
    let room = words.count();
    let failing = numbers(alloc, words)?;
    match BytesOut::new(alloc, room, &failing) {
        Ok(sink) => Ok(Output::Listed(sink)),
        Err(_) => Err(AllocError),
    }
}

fn new_clock(alloc: Global, readings: &[u64]) -> Result<ListClock, AllocError> {
    ListClock::new(alloc, readings).or(Err(AllocError))
}

fn new_link(alloc: Global, items: &[Option<Came>], bytes: &[u8]) -> Result<SteadyLink, AllocError>
    requires { bytes_of_all items.now ≡ length bytes.now }
{
    SteadyLink::new(alloc, items, bytes).or(Err(AllocError))
}

/// A link of what arrives, of how many bytes that is, and of the byte that all of it is made of.
fn link_of(alloc: Global, words: &mut Words<'_>) -> Result<Way, AllocError> {
    let items = arrivals(alloc, words)?;
    let count = words.count();
    let bytes = vec![in alloc; words.byte(u8::MAX); count]?;
    if have_bytes(&items, bytes.len()) {
        return Ok(Way::Steady(new_link(alloc, &items, &bytes)?));
    }
    words.are_wrong = true;
    Ok(Way::Steady(new_link(alloc, &[], &[])?))
}

/// A link of the same, of how many sends it has places for, of how many bytes together, and of the calls that fail.
fn list_link_of(alloc: Global, words: &mut Words<'_>) -> Result<Way, AllocError> {
    let items = arrivals(alloc, words)?;
    let count = words.count();
    let bytes = vec![in alloc; words.byte(u8::MAX); count]?;
    let sends = words.count();
    let room = words.count();
    let failing = numbers(alloc, words)?;
    if !have_bytes(&items, bytes.len()) {
        words.are_wrong = true;
        return Ok(Way::Steady(new_link(alloc, &[], &[])?));
    }
    match ListLink::new(alloc, &items, &bytes, sends, room, &failing) {
        Ok(link) => Ok(Way::Listed(link)),
        Err(_) => Err(AllocError),
    }
}

/// Bytes, or their number where they are many.
fn few(alloc: Global, bytes: &[u8]) -> Result<String, AllocError> {
    if bytes.len() > 8 {
        return shown(alloc, &bytes.len());
    }
    shown(alloc, &bytes)
}

fn copy_to<S: Source>(source: &mut S, output: &mut Output) -> Copied {
    match output {
        Output::Listed(sink) => copy(source, sink),
        Output::Steady(sink) => copy(source, sink),
        Output::Pipe(sink) => copy(source, sink),
        Output::Broken(sink) => copy(source, sink),
    }
}

/// What the last lines made.
#[derive(Drop)]
pub struct Outside {
    input: Input,
    output: Output,
    clock: ListClock,
    link: Way,
    reader: LineReader,
}

impl Calls for Outside {
    fn call(&mut self, rt: &HostRuntime, words: &mut Words<'_>) -> Result<String, AllocError> {
        let alloc = rt.alloc();
        let calls = [
            "read",
            "write",
            "bytes",
            "copy",
            "now",
            "bind",
            "send",
            "recv",
            "texts",
            "line",
            "send_row",
            "sent",
            "at_end",
            "source",
            "steady_source",
            "broken_source",
            "sink",
            "steady_sink",
            "broken_sink",
            "clock",
            "link",
            "pipe",
            "slow_source",
            "long_source",
            "lines",
            "list_link",
        ];
        words.among(&["outside"]);
        match words.among(&calls) {
            0 => self.read(alloc, words),
            1 => self.write(alloc, words),
            2 => shown(alloc, &self.bytes()),
            3 => shown(alloc, &self.copied()),
            4 => shown(alloc, &now_of(&mut self.clock)),
            5 => self.bind(alloc),
            6 => self.send(alloc, words),
            7 => self.recv(alloc, words.byte(u8::MAX)),
            8 => format!(in alloc; "{ReadFailed}, {WriteFailed}, {LinkFailed}"),
            9 => self.line(alloc),
            10 => self.send_row(alloc, words),
            11 => self.sent(alloc, words.count()),
            12 => self.at_end(alloc),
            form => {
                if self.make(rt, form, words).is_err() {
                    words.are_wrong = true;
                }
                Ok(String::new(alloc))
            }
        }
    }
}

impl Outside {
    pub fn new(alloc: Global) -> Result<Outside, AllocError> {
        match (
            new_clock(alloc, &[]),
            new_link(alloc, &[], &[]),
            new_reader(alloc, 0),
        ) {
            (Ok(clock), Ok(link), Ok(reader)) => Ok(Outside {
                input: Input::Broken(StandardInput::new(Broken)),
                output: Output::Broken(StandardOutput::new(Broken)),
                clock,
                link: Way::Steady(link),
                reader,
            }),
            _ => Err(AllocError),
        }
    }

    /// Makes what is named at this place among the words of `call`.
    fn make(&mut self, rt: &HostRuntime, form: usize, words: &mut Words<'_>) -> io::Result<()> {
        let alloc = rt.alloc();
        match form {
            13 => self.input = source_of(alloc, words)?,
            14 => self.input = steady_source_of(alloc, words)?,
            15 => self.input = Input::Broken(StandardInput::new(Broken)),
            16 => self.output = sink_of(alloc, words)?,
            17 => self.output = Output::Steady(SteadyOut::new()),
            18 => self.output = Output::Broken(StandardOutput::new(Broken)),
            19 => self.clock = new_clock(alloc, &numbers(alloc, words)?)?,
            20 => self.link = link_of(alloc, words)?,
            21 => {
                let (reader, writer) = io::pipe(rt)?;
                self.input = Input::Pipe(StandardInput::new(reader));
                self.output = Output::Pipe(StandardOutput::new(writer));
            }
            22 => self.input = slow_source_of(alloc, 0, words)?,
            23 => self.input = slow_source_of(alloc, words.count(), words)?,
            24 => self.reader = new_reader(alloc, words.count())?,
            25 => self.link = list_link_of(alloc, words)?,
            _ => {}
        }
        Ok(())
    }

    fn read(&mut self, alloc: Global, words: &mut Words<'_>) -> Result<String, AllocError> {
        let size = words.byte(8).into();
        match &mut self.input {
            Input::Listed(source) => read_from(alloc, source, size),
            Input::Slow(source) => read_from(alloc, source, size),
            Input::Steady(source) => read_from(alloc, source, size),
            Input::Pipe(source) => read_from(alloc, source, size),
            Input::Broken(source) => read_from(alloc, source, size),
        }
    }

    fn line(&mut self, alloc: Global) -> Result<String, AllocError> {
        match &mut self.input {
            Input::Listed(source) => next_line(alloc, &mut self.reader, source),
            Input::Slow(source) => next_line(alloc, &mut self.reader, source),
            Input::Steady(source) => next_line(alloc, &mut self.reader, source),
            Input::Pipe(source) => next_line(alloc, &mut self.reader, source),
            Input::Broken(source) => next_line(alloc, &mut self.reader, source),
        }
    }

    fn at_end(&mut self, alloc: Global) -> Result<String, AllocError> {
        let answer = match &mut self.input {
            Input::Listed(source) => is_at_end(&mut self.reader, source),
            Input::Slow(source) => is_at_end(&mut self.reader, source),
            Input::Steady(source) => is_at_end(&mut self.reader, source),
            Input::Pipe(source) => is_at_end(&mut self.reader, source),
            Input::Broken(source) => is_at_end(&mut self.reader, source),
        };
        shown(alloc, &answer)
    }

    fn write(&mut self, alloc: Global, words: &mut Words<'_>) -> Result<String, AllocError> {
        let piece = bytes(alloc, words)?;
        let count = match &mut self.output {
            Output::Listed(sink) => write_to(sink, &piece),
            Output::Steady(sink) => write_to(sink, &piece),
            Output::Pipe(sink) => write_to(sink, &piece),
            Output::Broken(sink) => write_to(sink, &piece),
        };
        shown(alloc, &count)
    }

    /// What a sink in memory has taken.
    fn bytes(&self) -> &[u8] {
        match &self.output {
            Output::Listed(sink) => sink.bytes(),
            _ => &[],
        }
    }

    fn copied(&mut self) -> Copied {
        match &mut self.input {
            Input::Listed(source) => copy_to(source, &mut self.output),
            Input::Slow(source) => copy_to(source, &mut self.output),
            Input::Steady(source) => copy_to(source, &mut self.output),
            Input::Pipe(source) => copy_to(source, &mut self.output),
            Input::Broken(source) => copy_to(source, &mut self.output),
        }
    }

    fn bind(&mut self, alloc: Global) -> Result<String, AllocError> {
        let bound = match &mut self.link {
            Way::Steady(link) => bind_to(link),
            Way::Listed(link) => bind_to(link),
        };
        shown(alloc, &bound)
    }

    fn send(&mut self, alloc: Global, words: &mut Words<'_>) -> Result<String, AllocError> {
        let bytes = bytes(alloc, words)?;
        self.send_bytes(alloc, &bytes)
    }

    /// Sends so many times the same byte.
    fn send_row(&mut self, alloc: Global, words: &mut Words<'_>) -> Result<String, AllocError> {
        let count = words.count();
        let bytes = vec![in alloc; words.byte(u8::MAX); count]?;
        self.send_bytes(alloc, &bytes)
    }

    fn send_bytes(&mut self, alloc: Global, bytes: &[u8]) -> Result<String, AllocError> {
        let sent = match &mut self.link {
            Way::Steady(link) => send_on(link, bytes),
            Way::Listed(link) => send_on(link, bytes),
        };
        shown(alloc, &sent)
    }

    fn recv(&mut self, alloc: Global, filled: u8) -> Result<String, AllocError> {
        match &mut self.link {
            Way::Steady(link) => recv_from(alloc, link, filled),
            Way::Listed(link) => recv_from(alloc, link, filled),
        }
    }

    /// What a link in memory has sent at this place.
    fn sent(&self, alloc: Global, place: usize) -> Result<String, AllocError> {
        let Way::Listed(link) = &self.link else {
            return Ok(String::new(alloc));
        };
        match link.sent(place) {
            Some((number, to, bytes)) => {
                let bytes = few(alloc, bytes)?;
                format!(in alloc; "{number} {to:?} {bytes}")
            }
            None => String::from_str(alloc, "none"),
        }
    }
}
