//! Reads and writes that fail or go in small pieces.

use crate::tests::{ONE_FILE, ONE_LINE, ROOM, seen};
use crate::{bytes_of, show, sink, source, words_of};
use gateway_tool::{OK, READ_FAULT, WRITE_FAULT, run_show};
use std::test::Fail;

#[test]
fn a_read_that_fails_is_reported_and_nothing_is_written(rt: HostRuntime) -> Result<(), Fail> {
    let alloc = rt.alloc();
    // 55 bytes by 40 are three reads, of which the last one finds the end.
    for (number, status, text) in [
        (0, READ_FAULT, ""),
        (1, READ_FAULT, ""),
        (2, READ_FAULT, ""),
        (3, OK, ONE_LINE),
    ] {
        let words = words_of(alloc, &["show", "a"])?;
        let mut input = source(alloc, bytes_of(alloc, ONE_FILE)?, 40, &[number])?;
        let mut out = sink(alloc, ROOM, usize::MAX, &[])?;
        let answer = run_show(alloc, words.as_slice(), &mut input, &mut out);
        assert_eq!(rt; seen(answer), (status, None), "read {number}");
        assert_eq!(rt; out.written(), text.as_bytes(), "read {number}");
    }
    Ok(())
}

#[test]
fn a_write_that_fails_leaves_what_was_written(rt: HostRuntime) -> Result<(), Fail> {
    let alloc = rt.alloc();
    // Room, the most bytes of one write, the write that fails, and what was written.
    for (room, piece, number, status, text) in [
        (5, ROOM, 9, WRITE_FAULT, "a-1-0"),
        (ROOM, ROOM, 0, WRITE_FAULT, ""),
        (0, ROOM, 9, WRITE_FAULT, ""),
        (ROOM, 1, 3, WRITE_FAULT, "a-1"),
        (ROOM, 1, 99, OK, ONE_LINE),
        (18, 7, 99, OK, ONE_LINE),
        (17, 7, 99, WRITE_FAULT, "a-1-0.conda 1 0 0"),
    ] {
        let piece: usize = piece;
        let mut out = sink(alloc, room, piece.max(1), &[number])?;
        let answer = show(alloc, "a", bytes_of(alloc, ONE_FILE)?, &mut out)?;
        assert_eq!(rt; seen(answer), (status, None), "room {room}, by {piece}");
        assert_eq!(rt; out.written(), text.as_bytes(), "room {room}, by {piece}");
    }
    Ok(())
}

#[test]
fn no_rows_are_no_write(rt: HostRuntime) -> Result<(), Fail> {
    let alloc = rt.alloc();
    let mut out = sink(alloc, 0, 1, &[0])?;
    let answer = show(alloc, "b", bytes_of(alloc, ONE_FILE)?, &mut out)?;
    assert_eq!(rt; seen(answer), (OK, None));
    Ok(())
}
