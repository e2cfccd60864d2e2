//! How much input is read.
ghost use Rattle.std.specs.Prelude.{None};

use crate::tests::{ROOM, seen};
use crate::{bytes_of, show, sink, words_of};
use gateway_tool::{OK, TOO_MUCH_INPUT, run_show};
use link_io::{Failed, Source};
use std::test::Fail;

// A source of so many bytes, which counts what it gave: some first bytes, and then what stands in
// the buffer anyway. It tells nothing.
#[derive(Drop)]
struct Long {
    front: Vec<u8>,
    size: usize,
    given: usize,
}

impl Source for Long {
    ghost left = { λ _. None };

    ghost faults = { λ _. 0 };

    fn read(&mut self, buf: &mut [u8]) -> Result<usize, Failed> {
        let count = self.size.saturating_sub(self.given).min(buf.len());
        if self.given == 0 {
            for (byte, first) in buf.iter_mut().zip(self.front.iter()) {
                *byte = *first;
            }
        }
        self.given = self.given.saturating_add(count);
        Ok(count)
    }
}

#[test]
fn reads_a_shard_up_to_the_limit(rt: HostRuntime) -> Result<(), Fail> {
    let alloc = rt.alloc();
    // A map of one key and a bin in 8 bytes and the bin's payload, in 33 554 432 bytes and in one more.
    for (front, size, status) in [
        ("81 a1 78 c6 01fffff8", 33_554_432, OK),
        ("81 a1 78 c6 01fffff9", 33_554_433, TOO_MUCH_INPUT),
    ] {
        let words = words_of(alloc, &["show", "a"])?;
        let mut input = Long {
            front: bytes_of(alloc, front)?,
            size,
            given: 0,
        };
        let mut out = sink(alloc, ROOM, usize::MAX, &[])?;
        let answer = run_show(alloc, words.as_slice(), &mut input, &mut out);
        assert_eq!(rt; seen(answer), (status, None), "{size} bytes");
    }
    Ok(())
}

#[test]
fn a_source_that_never_ends_is_not_read_past_the_limit(rt: HostRuntime) -> Result<(), Fail> {
    let alloc = rt.alloc();
    let words = words_of(alloc, &["show", "a"])?;
    let mut input = Long {
        front: Vec::new(alloc),
        size: usize::MAX,
        given: 0,
    };
    let mut out = sink(alloc, ROOM, usize::MAX, &[])?;
    let answer = run_show(alloc, words.as_slice(), &mut input, &mut out);
    assert_eq!(rt; seen(answer), (TOO_MUCH_INPUT, None));
    assert_eq!(rt; input.given, 33_554_433);
    Ok(())
}

#[test]
fn a_told_input_may_be_too_long_too(rt: HostRuntime) -> Result<(), Fail> {
    let alloc = rt.alloc();
    let bytes = vec![in alloc; 0x90; 33_554_433]?;
    let mut out = sink(alloc, ROOM, usize::MAX, &[])?;
    let answer = show(alloc, "a", bytes, &mut out)?;
    assert_eq!(rt; seen(answer), (TOO_MUCH_INPUT, None));
    Ok(())
}
