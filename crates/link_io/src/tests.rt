//! Runs of the two loops over sources and sinks in memory and over the real ones.
ghost use Rattle.std.specs.Prelude.{◌≤◌, None};

use crate::{
    Failed, MemSink, MemSource, ReadRefusal, Sink, Source, StdSink, StdSource, read_to_end,
    write_all,
};
use std::alloc::Global;
use std::fs;
use std::io::{self, Error, ErrorKind, Read, Write};
use std::test::Fail;

const TEXT: &[u8] = b"seven by";

fn source(alloc: Global, piece: usize, fails: &[u64]) -> Result<MemSource, Fail>
    requires { 1 ≤ piece }
{
    Ok(MemSource::new(alloc, TEXT.to_vec(alloc)?, piece, fails.to_vec(alloc)?))
}

fn sink(alloc: Global, room: usize, piece: usize, fails: &[u64]) -> Result<MemSink, Fail>
    requires { 1 ≤ piece }
{
    Ok(MemSink::new(alloc, room, piece, fails.to_vec(alloc)?)?)
}

// What reading comes to: all of the text, other bytes, or a refusal.
#[derive(Clone, Copy, Debug, PartialEq, Eq)]
enum Came {
    Text,
    Other,
    Refused(ReadRefusal),
}

fn outcome_of(read: Result<Vec<u8>, ReadRefusal>) -> Came {
    match read {
        Ok(bytes) => {
            if bytes.as_slice() == TEXT {
                Came::Text
            } else {
                Came::Other
            }
        }
        Err(refusal) => Came::Refused(refusal),
    }
}

fn came_by(alloc: Global, piece: usize, fails: &[u64], limit: usize) -> Result<Came, Fail> {
    let mut source = source(alloc, piece.max(1), fails)?;
    Ok(outcome_of(read_to_end(alloc, &mut source, limit)))
}

const TOO_MUCH: Came = Came::Refused(ReadRefusal::TooMuch);

// The most bytes of one read, the limit, and what reading comes to.
const LIMITS: [(usize, usize, Came); 9] = [
    (1, 8, Came::Text),
    (3, 8, Came::Text),
    (8, 8, Came::Text),
    (9, 9, Came::Text),
    (65_536, usize::MAX, Came::Text),
    // One byte more than the limit.
    (1, 7, TOO_MUCH),
    (3, 7, TOO_MUCH),
    (8, 0, TOO_MUCH),
    (9, 7, TOO_MUCH),
];

#[test]
fn reads_up_to_the_limit(rt: HostRuntime) -> Result<(), Fail> {
    for (piece, limit, wanted) in LIMITS {
        assert!(rt;
            came_by(rt.alloc(), piece, &[], limit)? == wanted,
            "{piece} {limit}"
        );
    }
    Ok(())
}

#[test]
fn a_read_that_fails_is_reported(rt: HostRuntime) -> Result<(), Fail> {
    for number in 0..4u64 {
        let came = came_by(rt.alloc(), 3, &[number], 100)?;
        assert!(rt; came == Came::Refused(ReadRefusal::Failed), "read {number}");
    }
    Ok(())
}

// A source that never ends, which counts the bytes that it gave.
#[derive(Drop)]
struct Endless {
    given: usize,
}

impl Source for Endless {
    ghost left = { λ _. None };

    ghost faults = { λ _. 0 };

    fn read(&mut self, buf: &mut [u8]) -> Result<usize, Failed> {
        self.given = self.given.saturating_add(buf.len());
        Ok(buf.len())
    }
}

// Whether an input without end is refused behind one byte more than the limit.
fn is_left_at(alloc: Global, limit: usize) -> bool {
    let mut endless = Endless { given: 0 };
    let came = outcome_of(read_to_end(alloc, &mut endless, limit));
    came == TOO_MUCH && endless.given.checked_sub(limit) == Some(1)
}

const ENDLESS: [usize; 5] = [0, 5, 65_535, 65_536, 300_000];

#[test]
fn an_input_without_end_is_not_read_past_the_limit(rt: HostRuntime) -> Result<(), Fail> {
    for limit in ENDLESS {
        assert!(rt; is_left_at(rt.alloc(), limit), "{limit}");
    }
    Ok(())
}

// Whether writing the text fails, and leaves what was written.
fn writes(
    alloc: Global,
    room: usize,
    piece: usize,
    fails: &[u64],
    written: &[u8],
    done: bool,
) -> Result<bool, Fail> {
    let mut sink = sink(alloc, room, piece.max(1), fails)?;
    let is_done = write_all(&mut sink, TEXT).is_ok();
    Ok(is_done == done && sink.written() == written)
}

// Room, the most of one write, the write that fails, what was written, and whether that is all.
const WRITES: [(usize, usize, u64, &[u8], bool); 8] = [
    (8, 1, 9, TEXT, true),
    (8, 3, 9, TEXT, true),
    (9, 9, 9, TEXT, true),
    (8, 3, 0, b"", false),
    (8, 3, 1, b"sev", false),
    (5, 3, 9, b"seven", false),
    (5, 1, 9, b"seven", false),
    (0, 3, 9, b"", false),
];

#[test]
fn writes_piece_by_piece_until_one_fails(rt: HostRuntime) -> Result<(), Fail> {
    for (room, piece, number, written, done) in WRITES {
        assert!(rt;
            writes(rt.alloc(), room, piece, &[number], written, done)?,
            "{room} {piece} {number}"
        );
    }
    Ok(())
}

#[test]
fn nothing_is_no_write(rt: HostRuntime) -> Result<(), Fail> {
    let mut sink = sink(rt.alloc(), 0, 1, &[])?;
    assert!(rt; write_all(&mut sink, b"").is_ok());
    Ok(())
}

// A reader that a signal interrupts some times before each of its reads.
#[derive(Drop)]
struct Signalled {
    times: u32,
    bytes: &'static [u8],
}

impl Read for Signalled {
    fn read(&mut self, buf: &mut [u8]) -> io::Result<usize> {
        if self.times > 0 {
            self.times -= 1;
            return Err(Error::from(ErrorKind::Interrupted));
        }
        self.bytes.read(buf)
    }
}

// How often a signal comes before each read, and what reading comes to.
const SIGNALS: [(u32, Came); 4] = [
    (0, Came::Text),
    (3, Came::Text),
    (999, Came::Text),
    (1000, Came::Refused(ReadRefusal::Failed)),
];

fn came_signalled(alloc: Global, times: u32) -> Came {
    let mut source = StdSource::new(Signalled { times, bytes: TEXT });
    outcome_of(read_to_end(alloc, &mut source, 100))
}

#[test]
fn a_signal_is_no_end_of_input(rt: HostRuntime) -> Result<(), Fail> {
    for (times, wanted) in SIGNALS {
        assert!(rt; came_signalled(rt.alloc(), times) == wanted, "{times}");
    }
    Ok(())
}

#[derive(Clone, Copy, PartialEq, Eq, Debug)]
enum Trouble {
    None,
    Signal,
    NothingTaken,
    NoFlush,
}

// A writer with one kind of trouble.
#[derive(Drop)]
struct Troubled {
    trouble: Trouble,
}

impl Write for Troubled {
    fn write(&mut self, bytes: &[u8]) -> io::Result<usize> {
        match self.trouble {
            Trouble::None | Trouble::NoFlush => Ok(bytes.len()),
            Trouble::Signal => {
                self.trouble = Trouble::None;
                Err(Error::from(ErrorKind::Interrupted))
            }
            Trouble::NothingTaken => Ok(0),
        }
    }

    fn flush(&mut self) -> io::Result<()> {
        match self.trouble {
            Trouble::NoFlush => Err(Error::from(ErrorKind::Other)),
            Trouble::None | Trouble::Signal | Trouble::NothingTaken => Ok(()),
        }
    }
}

const TROUBLES: [(Trouble, bool); 4] = [
    (Trouble::None, true),
    (Trouble::Signal, true),
    (Trouble::NothingTaken, false),
    (Trouble::NoFlush, false),
];

fn is_taken(trouble: Trouble) -> bool {
    let mut sink = StdSink::new(Troubled { trouble });
    write_all(&mut sink, TEXT).is_ok()
}

#[test]
fn a_writer_that_takes_nothing_or_does_not_flush_fails(rt: HostRuntime) -> Result<(), Fail> {
    for (trouble, taken) in TROUBLES {
        assert!(rt; is_taken(trouble) == taken, "{trouble:?}");
    }
    Ok(())
}

// A file of the system, a limit, and what reading comes to.
const FILES: [(&str, usize, Came); 3] = [
    ("/dev/null", 0, Came::Other),
    ("/dev/zero", 100_000, TOO_MUCH),
    ("/dev", 100, Came::Refused(ReadRefusal::Failed)),
];

fn came_of_file(rt: &HostRuntime, path: &str, limit: usize) -> Result<Came, Fail> {
    let mut source = StdSource::new(fs::open(rt, path)?);
    Ok(outcome_of(read_to_end(rt.alloc(), &mut source, limit)))
}

#[test]
fn real_files_are_sources(rt: HostRuntime) -> Result<(), Fail> {
    for (path, limit, wanted) in FILES {
        assert!(rt; came_of_file(&rt, path, limit)? == wanted, "{path}");
    }
    Ok(())
}

fn is_taken_by_file(rt: &HostRuntime, path: &str) -> Result<bool, Fail> {
    let mut sink = StdSink::new(fs::create(rt, path)?);
    Ok(write_all(&mut sink, TEXT).is_ok())
}

#[test]
fn real_files_are_sinks(rt: HostRuntime) -> Result<(), Fail> {
    assert!(rt; is_taken_by_file(&rt, "/dev/null")?);
    assert!(rt; !is_taken_by_file(&rt, "/dev/full")?);
    Ok(())
}
