//! Stores that stop under `index` and under `closure`, inputs and outputs that fail, and inputs that are
//! too much.

use crate::tests::ROOM;
use crate::tests::channels::{INDEX, THREE_FILES, closure, index, is_answered, put_input};
use crate::{sink, source};
use channel_store::MemStore;
use gateway_tool::{
    BAD_FILE, NOT_ANSWERED, OK, READ_FAULT, STORE_FAULT, TOO_MUCH_INPUT, WRITE_FAULT,
};
use mp_codec::Text;
use std::alloc::{AllocError, Global};
use std::test::Fail;

const C: &[&str] = &["--channels=c", "--subdirs=noarch"];

// The file before, and what `closure` prints of it.
const BEFORE: &str = r#"{"packages":{"a-0-0.conda":{"name":"a","version":"0","build":"0"}}}"#;

const OLD: &str = "request 1 ok 1\nc/noarch/a-0-0.conda 0 0 0\n";

// What it prints of the file behind it, which has three files.
const NEW: &str = "request 1 ok 3\nc/noarch/a-1-0.tar.bz2 1 0 0\nc/noarch/a-2-0.conda 2 0 0\n\
     c/noarch/b-1-0.conda 1 0 0\n";

// All files that either has: the input, the index, the shards of `a` and `b`, and that of `a` before.
const FILES: [&str; 5] = [
    "c/noarch/repodata.json",
    INDEX,
    "c/noarch/shards/05b8099e41bd83108fc8011507f50ad551192b441845fa817349ce73c23be912.msgpack",
    "c/noarch/shards/002982ea29af2d914f2e3437a96bc86536daef40ee6ac83c8dd339b2e1557a89.msgpack",
    "c/noarch/shards/978aa76254bb4f03cff1ad1261fb3524cc047746167bd6e5a51476f1ba071734.msgpack",
];

// A store with the files of another one, which fails from its call of a number on.
fn restarted(
    alloc: Global,
    store: &MemStore,
    fails_from: Option<u64>,
) -> Result<MemStore, AllocError> {
    let mut files = Vec::new(alloc);
    for name in FILES {
        if let Some(bytes) = store.file(name) {
            files.push((Text::copy(alloc, name)?, bytes.to_vec(alloc)?))?;
        }
    }
    Ok(MemStore::new(alloc, files, Vec::new(alloc), fails_from))
}

// A store in which the second file stands, with the index of the first one or with none.
fn begun(alloc: Global, has_index: bool) -> Result<MemStore, Fail> {
    let mut store = MemStore::new(alloc, Vec::new(alloc), Vec::new(alloc), None);
    if has_index {
        put_input(alloc, &mut store, "c/noarch", BEFORE)?;
        index(alloc, &mut store, "c/noarch")?;
    }
    put_input(alloc, &mut store, "c/noarch", THREE_FILES)?;
    Ok(store)
}

// Whether two stores have the same files.
fn are_same(one: &MemStore, other: &MemStore) -> bool {
    for name in FILES {
        if one.file(name) != other.file(name) {
            return false;
        }
    }
    true
}

// Whether `closure` answers `a` so, or meets an index that isn't there where nothing is answered.
fn is_seen(alloc: Global, store: &mut MemStore, text: Option<&str>) -> Result<bool, AllocError> {
    match text {
        Some(text) => is_answered(alloc, store, C, b"a", OK, text),
        None => is_absent(alloc, store),
    }
}

// Whether `closure` meets an index that isn't there.
fn is_absent(alloc: Global, store: &mut MemStore) -> Result<bool, AllocError> {
    let mut input = source(alloc, b"a".to_vec(alloc)?, usize::MAX, &[])?;
    let mut out = sink(alloc, ROOM, usize::MAX, &[])?;
    let status = closure(alloc, store, C, &mut input, &mut out)?.0;
    Ok(status == BAD_FILE && out.written().is_empty() && store.file(INDEX).is_none())
}

// Whether there is an index at first, and what `closure` finds as long as `index` has not ended.
const BEGINNINGS: [(bool, Option<&str>); 2] = [(true, Some(OLD)), (false, None)];

// The calls of `index` are: get the input, get and put each of two shards, and put the index. It stops
// from one of them on, and is then run again.
#[test]
fn an_index_that_stopped_leaves_the_old_answer(rt: HostRuntime) -> Result<(), Fail> {
    let alloc = rt.alloc();
    for (has_index, text) in BEGINNINGS {
        let begun = begun(alloc, has_index)?;
        let mut whole = restarted(alloc, &begun, None)?;
        assert_eq!(rt; index(alloc, &mut whole, "c/noarch")?, OK);
        for stop in 0..6 {
            let mut stopped = restarted(alloc, &begun, Some(stop))?;
            assert_eq!(rt;
                index(alloc, &mut stopped, "c/noarch")?,
                STORE_FAULT,
                "{stop}"
            );
            let mut store = restarted(alloc, &stopped, None)?;
            assert!(rt; is_seen(alloc, &mut store, text)?, "a stop at call {stop}");
            assert_eq!(rt; index(alloc, &mut store, "c/noarch")?, OK, "{stop}");
            assert!(rt; are_same(&store, &whole), "a stop at call {stop}");
            assert!(rt;
                is_seen(alloc, &mut store, Some(NEW))?,
                "a stop at call {stop}"
            );
        }
        let mut ended = restarted(alloc, &begun, Some(6))?;
        assert_eq!(rt; index(alloc, &mut ended, "c/noarch")?, OK);
        assert!(rt; are_same(&ended, &whole));
    }
    Ok(())
}

// The calls of `closure` are: get the index, and the shards of `a` and `b`.
#[test]
fn a_store_that_stops_is_reported_and_nothing_is_written(rt: HostRuntime) -> Result<(), Fail> {
    let alloc = rt.alloc();
    let mut whole = begun(alloc, false)?;
    index(alloc, &mut whole, "c/noarch")?;
    for stop in 0..4 {
        let mut store = restarted(alloc, &whole, Some(stop))?;
        let (status, text) = if stop < 3 {
            (STORE_FAULT, "")
        } else {
            (OK, NEW)
        };
        let is_so = is_answered(alloc, &mut store, C, b"a", status, text)?;
        assert!(rt; is_so, "a stop at call {stop}");
    }
    Ok(())
}

// The read that fails, of three by two bytes of which the last one finds the end; the room, the most
// bytes of one write, and the write that fails; the status, and what is written.
const FAULTS: [(u64, usize, usize, u64, u8, &str); 7] = [
    (0, ROOM, ROOM, 9, READ_FAULT, ""),
    (1, ROOM, ROOM, 9, READ_FAULT, ""),
    (2, ROOM, ROOM, 9, READ_FAULT, ""),
    (3, ROOM, ROOM, 9, OK, NEW),
    (3, 5, ROOM, 9, WRITE_FAULT, "reque"),
    (3, ROOM, ROOM, 0, WRITE_FAULT, ""),
    (3, ROOM, 1, 3, WRITE_FAULT, "req"),
];

#[test]
fn a_read_or_a_write_that_fails_is_reported(rt: HostRuntime) -> Result<(), Fail> {
    let alloc = rt.alloc();
    let mut store = begun(alloc, false)?;
    index(alloc, &mut store, "c/noarch")?;
    for (read, room, piece, write, status, text) in FAULTS {
        let mut input = source(alloc, b"a\r\n".to_vec(alloc)?, 2, &[read])?;
        let mut out = sink(alloc, room, piece.max(1), &[write])?;
        let answer = closure(alloc, &mut store, C, &mut input, &mut out)?;
        assert_eq!(rt; answer.0, status, "{read} {room} {piece} {write}");
        assert!(rt;
            out.written() == text.as_bytes(),
            "{read} {room} {piece} {write}"
        );
    }
    Ok(())
}

// So many times a line, and behind it so many blanks.
fn lines(alloc: Global, count: usize, blanks: usize) -> Result<Vec<u8>, AllocError> {
    let mut text = Vec::new(alloc);
    for _ in 0..count {
        text.extend_from_slice(b"x\n")?;
    }
    for _ in 0..blanks {
        text.push(b' ')?;
    }
    Ok(text)
}

// Lines, blanks, the status over a store without files, and what is written: the most lines and one
// more, of which the last one has no newline, and the most bytes, of which no spec is made, and one more.
const INPUTS: [(usize, usize, u8, &str); 5] = [
    (4096, 0, BAD_FILE, ""),
    (4097, 0, TOO_MUCH_INPUT, ""),
    (4096, 1, TOO_MUCH_INPUT, ""),
    (0, 1_048_576, NOT_ANSWERED, "request 1 refused 1 1\n"),
    (0, 1_048_577, TOO_MUCH_INPUT, ""),
];

#[test]
fn counts_the_lines_and_the_bytes_of_its_input(rt: HostRuntime) -> Result<(), Fail> {
    let alloc = rt.alloc();
    let mut store = MemStore::new(alloc, Vec::new(alloc), Vec::new(alloc), None);
    for (count, blanks, status, text) in INPUTS {
        let mut input = source(alloc, lines(alloc, count, blanks)?, usize::MAX, &[])?;
        let mut out = sink(alloc, ROOM, usize::MAX, &[])?;
        let answer = closure(alloc, &mut store, C, &mut input, &mut out)?;
        assert_eq!(rt; answer.0, status, "{count} {blanks}");
        assert!(rt; out.written() == text.as_bytes(), "{count} {blanks}");
    }
    Ok(())
}
