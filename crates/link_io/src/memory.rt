//! A source and a sink in memory, with the numbers of the calls that fail.
ghost use Rattle.std.specs.Prelude.{◌≡◌, ◌↔◌, ◌⊎◌, ◌<◌, ◌≤◌, Some, length, take, IfOk, OnErr, IsErr, Contains, MatchResult};
ghost use Rattle.gateway_words.specs.Causes.{HasCause};
ghost use Rattle.link_io.specs.Source.{Reads};
ghost use Rattle.link_io.specs.Sink.{Writes};
ghost use Rattle.link_io.specs.Memory.{input_of, read_size, input_after, input_after_fault, output_of, free, write_size, output_after, output_after_fault};

use crate::{Failed, Sink, Source};
use std::alloc::{AllocError, Global};
use std::marker::Model;

/// A source in memory. Reads are counted from 0.
#[derive(Drop)]
pub struct MemSource {
    bytes: Vec<u8>,
    at: usize,
    piece: usize,
    fails: Vec<u64>,
    reads: u64,
    faults: u64,
}

impl Model for MemSource {
    ghost use Rattle.std.specs.Prelude.{◌≤◌, drop, vec_len};
    ghost use Rattle.link_io.specs.Memory.{MemoryInput};

    ghost Value = { MemoryInput };

    ghost view = { λ s. record {
      left = drop s.at s.bytes.items;
      piece = s.piece;
      fails = s.fails.items;
      reads = s.reads;
      faults = s.faults;
    } };

    ghost invariant = { λ s. (s.at ≤ vec_len s.bytes) × (1 ≤ s.piece) };
}

impl MemSource {
    /// A source of these bytes that gives at most `piece` of them in one read. The reads whose
    /// numbers are in `fails` fail. It takes no memory of its own.
    pub fn new(_alloc: Global, bytes: Vec<u8>, piece: usize, fails: Vec<u64>) -> MemSource
        requires { 1 ≤ piece }
        ensures { result ≡ input_of bytes.items piece fails.items }
    {
        MemSource {
            bytes,
            at: 0,
            piece,
            fails,
            reads: 0,
            faults: 0,
        }
    }
}

impl Source for MemSource {
    ghost left = { λ s. Some s.left };

    ghost faults = { λ s. s.faults };

    fn read(&mut self, buf: &mut [u8]) -> Result<usize, Failed>
        requires { 0 < length buf.old }

        ensures ok { IfOk result (λ count.
            Reads (Some self.old.left) (Some self.new.left) count buf.new) }
        ensures err { OnErr result (self.new.left ≡ self.old.left) }

        // Which reads fail, how many bytes the others give, and what each leaves.
        ensures fails { IsErr result ↔ Contains self.old.fails self.old.reads }
        ensures exact { IfOk result (λ count. count ≡ read_size self.old (length buf.old)) }
        ensures after { MatchResult result (λ count. self.new ≡ input_after self.old count)
            (λ _. self.new ≡ input_after_fault self.old) }

        ensures cause { HasCause self.old.faults self.new.faults result }
    {
        let number = self.reads;
        self.reads = number.saturating_add(1);
        if self.fails.contains(&number) {
            self.faults = self.faults.saturating_add(1);
            return Err(Failed);
        }
        let left = self.bytes.len() - self.at;
        let count = left.min(buf.len()).min(self.piece);
        buf[..count].copy_from_slice(&self.bytes[self.at..self.at + count]);
        self.at += count;
        Ok(count)
    }
}

/// A sink in memory. Writes are counted from 0.
#[derive(Drop)]
pub struct MemSink {
    written: Vec<u8>,
    room: usize,
    piece: usize,
    fails: Vec<u64>,
    writes: u64,
    faults: u64,
}

impl Model for MemSink {
    ghost use Rattle.std.specs.Prelude.{◌≤◌, vec_len, vec_capacity};
    ghost use Rattle.link_io.specs.Memory.{MemoryOutput};

    ghost Value = { MemoryOutput };

    ghost view = { λ s. record {
      written = s.written.items;
      room = s.room;
      piece = s.piece;
      fails = s.fails.items;
      writes = s.writes;
      faults = s.faults;
    } };

    ghost invariant = { λ s.
        (vec_len s.written ≤ s.room) × (s.room ≤ vec_capacity s.written) × (1 ≤ s.piece) };
}

impl MemSink {
    /// An empty sink with room for that many bytes, which takes at most `piece` of them in one
    /// write. The writes whose numbers are in `fails` fail, and so does each when nothing is free.
    ///
    /// `AllocError` where the memory for the room isn't there.
    pub fn new(
        alloc: Global,
        room: usize,
        piece: usize,
        fails: Vec<u64>,
    ) -> Result<MemSink, AllocError>
        requires { 1 ≤ piece }
        ensures { IfOk result (λ sink. sink ≡ output_of room piece fails.items) }
    {
        Ok(MemSink {
            written: Vec::with_capacity(alloc, room)?,
            room,
            piece,
            fails,
            writes: 0,
            faults: 0,
        })
    }

    /// The bytes that were taken so far.
    pub fn written(&self) -> &[u8]
        ensures { result.now ≡ self.now.written }
    {
        &self.written
    }
}

impl Sink for MemSink {
    ghost written = { λ s. Some s.written };

    ghost faults = { λ s. s.faults };

    fn write(&mut self, bytes: &[u8]) -> Result<usize, Failed>
        requires { 0 < length bytes.now }

        ensures ok { IfOk result (λ count.
            Writes (Some self.old.written) (Some self.new.written) count bytes.now) }
        ensures err { OnErr result (self.new.written ≡ self.old.written) }

        // Which writes fail, how many bytes the others take, and what each leaves.
        ensures fails { IsErr result
            ↔ (Contains self.old.fails self.old.writes ⊎ (free self.old ≡ 0)) }
        ensures exact { IfOk result (λ count. count ≡ write_size self.old (length bytes.now)) }
        ensures after { MatchResult result
            (λ count. self.new ≡ output_after self.old (take count bytes.now))
            (λ _. self.new ≡ output_after_fault self.old) }

        ensures cause { HasCause self.old.faults self.new.faults result }
    {
        let number = self.writes;
        self.writes = number.saturating_add(1);
        let free = self.room - self.written.len();
        if free == 0 || self.fails.contains(&number) {
            self.faults = self.faults.saturating_add(1);
            return Err(Failed);
        }
        let count = free.min(bytes.len()).min(self.piece);
        self.written.extend_from_slice(&bytes[..count]).unwrap();
        Ok(count)
    }
}
