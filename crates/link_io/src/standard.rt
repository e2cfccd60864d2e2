//! The real streams: a reader and a writer of std as a source and a sink, which tell no bytes.
ghost use Rattle.std.specs.Prelude.{◌≡◌, ◌<◌, ◌≤◌, None, length, take, IfOk};
ghost use Rattle.std.specs.Io.KnownBytes.{Appends, ReadConsumes};
ghost use Rattle.gateway_words.specs.Causes.{HasCause};
ghost use Rattle.link_io.specs.Standard.{reader_of, failed_reads, writer_of, failed_writes};

use crate::{Failed, Sink, Source};
use std::io::{Error, ErrorKind, Read, Write};

// How often a call is made again that a signal interrupts.
const MOST_TRIES: u32 = 1000;

/// A reader of std, as standard input or a file, as a source. It tells none of its bytes.
#[derive(Drop)]
pub struct StdSource<R> {
    reader: R,
    faults: u64,
}

impl<R: Read + Drop> StdSource<R> {
    /// A source of what the reader has left.
    pub fn new(reader: R) -> Self
        ensures reader { reader_of result ≡ reader }
        ensures faults { failed_reads result ≡ 0 }
    {
        StdSource { reader, faults: 0 }
    }
}

impl<R: Read + Drop> Source for StdSource<R> {
    ghost left = { λ _. None };

    ghost faults = { λ s. s.faults };

    fn read(&mut self, buf: &mut [u8]) -> Result<usize, Failed>
        ensures within { IfOk result (λ count. count ≤ length buf.new) }
        ensures passed_on { ReadConsumes (R.remaining (reader_of self.old))
            (R.remaining (reader_of self.new)) result buf.new }

        ensures cause { HasCause (failed_reads self.old) (failed_reads self.new) result }
    {
        match read_uninterrupted(&mut self.reader, buf) {
            Ok(count) => Ok(count),
            Err(_) => {
                self.faults = self.faults.saturating_add(1);
                Err(Failed)
            }
        }
    }
}

/// A writer of std, as standard output, as a sink. It tells none of its bytes.
#[derive(Drop)]
pub struct StdSink<W> {
    writer: W,
    faults: u64,
}

impl<W: Write + Drop> StdSink<W> {
    /// A sink in front of the writer. Each write is flushed, so that none is lost unseen; where
    /// the flush fails, the writer may have taken the bytes.
    pub fn new(writer: W) -> Self
        ensures writer { writer_of result ≡ writer }
        ensures faults { failed_writes result ≡ 0 }
    {
        StdSink { writer, faults: 0 }
    }
}

impl<W: Write + Drop> Sink for StdSink<W> {
    ghost written = { λ _. None };

    ghost faults = { λ s. s.faults };

    fn write(&mut self, bytes: &[u8]) -> Result<usize, Failed>
        ensures some { IfOk result (λ count. 0 < count) }
        ensures within { IfOk result (λ count. count ≤ length bytes.now) }
        ensures passed_on { IfOk result (λ count. Appends (W.contents (writer_of self.old))
            (W.contents (writer_of self.new)) (take count bytes.now)) }

        ensures cause { HasCause (failed_writes self.old) (failed_writes self.new) result }
    {
        match write_through(&mut self.writer, bytes) {
            Ok(count) if count > 0 => Ok(count),
            _ => {
                self.faults = self.faults.saturating_add(1);
                Err(Failed)
            }
        }
    }
}

// One read, made again where a signal interrupts it.
fn read_uninterrupted<R: Read>(reader: &mut R, buf: &mut [u8]) -> Result<usize, Error>
    ensures within { IfOk result (λ count. count ≤ length buf.new) }
    ensures bytes { ReadConsumes (R.remaining reader.old) (R.remaining reader.new) result buf.new }
{
    for _ in 1..MOST_TRIES {
        match reader.read(buf) {
            Err(error) if error.kind() == ErrorKind::Interrupted => {}
            answer => return answer,
        }
    }
    reader.read(buf)
}

// One write that reaches the system before it is answered, made again where a signal interrupts it.
fn write_through<W: Write>(writer: &mut W, bytes: &[u8]) -> Result<usize, Error>
    ensures within { IfOk result (λ count. count ≤ length bytes.now) }
    ensures bytes { IfOk result (λ count.
        Appends (W.contents writer.old) (W.contents writer.new) (take count bytes.now)) }
{
    let count = write_uninterrupted(writer, bytes)?;
    writer.flush()?;
    Ok(count)
}

fn write_uninterrupted<W: Write>(writer: &mut W, bytes: &[u8]) -> Result<usize, Error>
    ensures within { IfOk result (λ count. count ≤ length bytes.now) }
    ensures bytes { IfOk result (λ count.
        Appends (W.contents writer.old) (W.contents writer.new) (take count bytes.now)) }
{
    for _ in 1..MOST_TRIES {
        match writer.write(bytes) {
            Err(error) if error.kind() == ErrorKind::Interrupted => {}
            answer => return answer,
        }
    }
    writer.write(bytes)
}
