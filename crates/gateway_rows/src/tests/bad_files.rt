//! Files that requests need and that are bad: the first one is named, with what is wrong with it.

ghost use Rattle.std.specs.Prelude.{None};

use crate::tests::ROOM;
use crate::tests::channels::{INDEX, SHARD, channels, closure, put, take};
use crate::{bytes_of, sink, source};
use channel_store::{Got, MemStore, Store, StoreRefusal};
use digest_gate::Digest;
use gateway_tool::{BAD_FILE, Note};
use mp_codec::{FaultKind, FormatFault};
use std::alloc::{AllocError, Global};
use std::test::Fail;
use store_closure::FileWhy;

const C: &[&str] = &["--channels=A,c", "--subdirs=noarch"];

const ONLY_C: &[&str] = &["--channels=c", "--subdirs=noarch"];

const K: &[&str] = &["--channels=k", "--subdirs=noarch"];

// The shard of `a` in `c`.
const FIRST_SHARD: &str =
    "c/noarch/shards/05b8099e41bd83108fc8011507f50ad551192b441845fa817349ce73c23be912.msgpack";

// The file that the index of `k` lists for `b`.
const NO_SHARD: &str =
    "k/noarch/shards/9e076ceaf246b6003d9c2680a2b4cf0bffd069805902b0b5edeebf49039fe4bd.msgpack";

// Options, the name of a file, what stands there instead, or nothing, and the place and the kind of
// its fault, if it is there.
const BAD: [(&[&str], &str, Option<&[u8]>, Option<(u64, FaultKind)>); 7] = [
    (C, INDEX, None, None),
    (C, INDEX, Some(b""), Some((0, FaultKind::Short))),
    (C, INDEX, Some(b"\x90"), Some((0, FaultKind::Wrong))),
    (C, INDEX, Some(b"\x80"), Some((1, FaultKind::Missing))),
    (
        C,
        INDEX,
        Some(b"\x82\xa7version\x02\xa6shards\x80"),
        Some((9, FaultKind::Version)),
    ),
    (C, SHARD, None, None),
    (K, NO_SHARD, Some(b"\x90"), Some((0, FaultKind::Wrong))),
];

// Whether `closure` with these options meets this bad file in an input, and writes nothing.
fn is_bad<S: Store>(
    alloc: Global,
    store: &mut S,
    options: &[&str],
    input: &[u8],
    name: &str,
    why: FileWhy,
) -> Result<bool, AllocError> {
    let mut input = source(alloc, input.to_vec(alloc)?, usize::MAX, &[])?;
    let mut out = sink(alloc, ROOM, usize::MAX, &[])?;
    let answer = closure(alloc, store, options, &mut input, &mut out)?;
    Ok(answer.0 == BAD_FILE && out.written().is_empty() && says(&answer.1, name, why))
}

// Whether a note says this of a file.
fn says(note: &Note, name: &str, why: FileWhy) -> bool {
    match note {
        Note::File(file, said) => file.as_str() == name && *said == why,
        Note::Nothing | Note::Shard(_) | Note::Indexing(_) => false,
    }
}

// Why a file is bad that has this fault, or isn't there.
fn why_of(fault: Option<(u64, FaultKind)>) -> FileWhy {
    match fault {
        Some((at, kind)) => FileWhy::Format(FormatFault { at, kind }),
        None => FileWhy::Absent,
    }
}

// Puts other bytes into the place of a file, or takes it away.
fn spoil(
    alloc: Global,
    store: &mut MemStore,
    name: &str,
    bytes: Option<&[u8]>,
) -> Result<(), Fail> {
    match bytes {
        Some(bytes) => put(alloc, store, name, bytes),
        None => take(alloc, store, name),
    }
}

// The first line is refused, and the second one needs the file.
#[test]
fn names_a_file_that_is_bad(rt: HostRuntime) -> Result<(), Fail> {
    let alloc = rt.alloc();
    for (options, name, bytes, fault) in BAD {
        let mut store = channels(alloc)?;
        spoil(alloc, &mut store, name, bytes)?;
        let is_so = is_bad(alloc, &mut store, options, b";\nb\n", name, why_of(fault))?;
        assert!(rt; is_so, "{name} {fault:?}");
    }
    Ok(())
}

// What stands in the place of the shard of `b`, and its digest: one bit of the last byte is another, a
// map without keys, and a byte that is no shard.
const OTHERS: [(&str, &str); 3] = [
    (
        "83 a8 7061636b61676573 80 ae 7061636b616765732e636f6e6461 81 ab 622d312d302e636f6e6461 85
        a4 6e616d65 a1 62 a7 76657273696f6e a1 31 a5 6275696c64 a1 30
        ac 6275696c645f6e756d626572 00 a7 646570656e6473 90 a7 72656d6f766564 91",
        "cbff4a7f7fc24d44dc920a063d3946a2302a8fc8e09e532ebf14135cb8e61a17",
    ),
    (
        "80",
        "76be8b528d0075f7aae98d6fa57a6d3c83ae480a8469e668d7b0af968995ac71",
    ),
    (
        "90",
        "9e076ceaf246b6003d9c2680a2b4cf0bffd069805902b0b5edeebf49039fe4bd",
    ),
];

const LISTED: &str = "002982ea29af2d914f2e3437a96bc86536daef40ee6ac83c8dd339b2e1557a89";

#[test]
fn names_both_digests_of_a_shard(rt: HostRuntime) -> Result<(), Fail> {
    let alloc = rt.alloc();
    for (hex, digest) in OTHERS {
        let mut store = channels(alloc)?;
        put(alloc, &mut store, SHARD, &bytes_of(alloc, hex)?)?;
        let want = Digest::from_hex(LISTED).ok_or("it is a digest")?;
        let got = Digest::from_hex(digest).ok_or("it is a digest")?;
        let why = FileWhy::Digest { want, got };
        assert!(rt;
            is_bad(alloc, &mut store, C, b"a\n", SHARD, why)?,
            "{digest}"
        );
    }
    Ok(())
}

// A store that tells nothing and has the index of `c` alone, of so many bytes. It gives it to nobody:
// where it isn't too long, there is no file.
#[derive(Drop)]
struct OneIndex {
    size: u64,
}

impl Store for OneIndex {
    ghost files = { λ _. None };

    ghost faults = { λ _. 0 };

    fn get(&mut self, _alloc: Global, name: &str, limit: u64) -> Result<Got, StoreRefusal> {
        if name == INDEX && self.size > limit {
            Ok(Got::Long)
        } else {
            Ok(Got::Absent)
        }
    }

    fn put(&mut self, _alloc: Global, _name: &str, _bytes: &[u8]) -> Result<(), StoreRefusal> {
        Err(StoreRefusal::Memory)
    }

    fn remove(&mut self, _alloc: Global, _name: &str) -> Result<(), StoreRefusal> {
        Err(StoreRefusal::Memory)
    }
}

#[test]
fn names_a_file_that_is_too_long(rt: HostRuntime) -> Result<(), Fail> {
    let alloc = rt.alloc();
    for (size, why) in [
        (33_554_432, FileWhy::Absent),
        (33_554_433, FileWhy::Long),
        (u64::MAX, FileWhy::Long),
    ] {
        let mut store = OneIndex { size };
        let is_so = is_bad(alloc, &mut store, ONLY_C, b"a\n", INDEX, why)?;
        assert!(rt; is_so, "{size}");
    }
    Ok(())
}

// Three files are gone: both shards of `c`, and the index of `B`. Options, an input, and the file that
// is met first.
const FIRST: [(&[&str], &[u8], &str); 5] = [
    (C, b"a", FIRST_SHARD),
    (C, b"b;a", FIRST_SHARD),
    (C, b"x\nb\na", SHARD),
    (
        &["--channels=c,B", "--subdirs=noarch"],
        b"a",
        "B/noarch/repodata_shards.msgpack",
    ),
    (
        &["--channels=c", "--subdirs=noarch", "--flat"],
        b"nowhere\na",
        FIRST_SHARD,
    ),
];

#[test]
fn names_the_first_file_of_the_first_line(rt: HostRuntime) -> Result<(), Fail> {
    let alloc = rt.alloc();
    let mut store = channels(alloc)?;
    for name in [FIRST_SHARD, SHARD, "B/noarch/repodata_shards.msgpack"] {
        take(alloc, &mut store, name)?;
    }
    for (options, input, name) in FIRST {
        let is_so = is_bad(alloc, &mut store, options, input, name, FileWhy::Absent)?;
        assert!(rt; is_so, "{options:?} {name}");
    }
    Ok(())
}
