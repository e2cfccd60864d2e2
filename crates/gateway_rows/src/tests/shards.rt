//! Shards and bytes that are none, each with what `show` writes and answers.

use crate::tests::{ONE_FILE, ONE_LINE, ROOM, seen};
use crate::{bytes_of, show, sink};
use gateway_tool::{BAD_FILE, OK};
use mp_codec::{FaultKind, FormatFault};
use std::test::Fail;

// The three keys, all empty, in 36 bytes.
const EMPTY: &str =
    "83 a8 7061636b61676573 80 ae 7061636b616765732e636f6e6461 80 a7 72656d6f766564 90";

const NO_ROWS: (u8, &str, Option<FormatFault>) = (OK, "", None);

fn refused(at: u64, kind: FaultKind) -> (u8, &'static str, Option<FormatFault>) {
    (BAD_FILE, "", Some(FormatFault { at, kind }))
}

#[test]
fn shows_the_rows_and_refuses_what_is_no_shard(rt: HostRuntime) -> Result<(), Fail> {
    let alloc = rt.alloc();
    let trailing = format!(in alloc; "{EMPTY} 00")?;
    let rows = [
        ("all keys are empty", "numpy", EMPTY, NO_ROWS),
        (
            "cut behind 5 bytes",
            "numpy",
            "83 a8 706163",
            refused(5, FaultKind::Short),
        ),
        ("no byte at all", "numpy", "", refused(0, FaultKind::Short)),
        (
            "a byte behind the shard",
            "numpy",
            trailing.as_str(),
            refused(36, FaultKind::Trailing),
        ),
        ("one file", "A", ONE_FILE, (OK, ONE_LINE, None)),
        ("one file of another name", "b", ONE_FILE, NO_ROWS),
        (
            "a float and an ext are passed over",
            "numpy",
            "82 a1 78 92 cb 400921fb54442d18 c7 02 05 aa bb a8 7061636b61676573 80",
            NO_ROWS,
        ),
        (
            "4 294 967 295 pairs in 20 bytes",
            "numpy",
            "df ff ff ff ff 000000 000000 000000 000000 000000",
            refused(20, FaultKind::Short),
        ),
        (
            "a known key twice",
            "numpy",
            "82 a8 7061636b61676573 80 a8 7061636b61676573 80",
            refused(11, FaultKind::Repeated),
        ),
        (
            "a reserved byte",
            "numpy",
            "81 a1 78 c1",
            refused(3, FaultKind::Reserved),
        ),
        (
            "packages are an array",
            "numpy",
            "81 a8 7061636b61676573 90",
            refused(10, FaultKind::Wrong),
        ),
        (
            "the top is an array",
            "numpy",
            "90",
            refused(0, FaultKind::Wrong),
        ),
        (
            "a record without a name",
            "numpy",
            "81 ae 7061636b616765732e636f6e6461 81 a1 61 80",
            refused(20, FaultKind::Missing),
        ),
    ];
    for (row, name, hex, (status, text, fault)) in rows {
        let mut out = sink(alloc, ROOM, usize::MAX, &[])?;
        let answer = show(alloc, name, bytes_of(alloc, hex)?, &mut out)?;
        assert_eq!(rt; seen(answer), (status, fault), "{row}");
        assert_eq!(rt; out.written(), text.as_bytes(), "{row}");
    }
    Ok(())
}
