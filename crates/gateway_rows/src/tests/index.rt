//! Runs of `index` over a store in memory: the line, the note on a bad file, and stores that stop.

use crate::tests::ROOM;
use crate::{sink, source, words_of};
use channel_indexer::{IndexFault, Large};
use channel_store::MemStore;
use gateway_tool::{BAD_FILE, Note, OK, STORE_FAULT, USAGE, WRITE_FAULT, run_files};
use mp_codec::Text;
use std::alloc::Global;
use std::test::Fail;

const PLACE: &str = "c/noarch";

const INPUT: &str = "c/noarch/repodata.json";

const INDEX: &str = "c/noarch/repodata_shards.msgpack";

// Three files of two names.
const THREE_FILES: &str = r#"{"packages":{"a-1-0.tar.bz2":{"name":"a","version":"1","build":"0",
"depends":["b"]}},"packages.conda":{"a-2-0.conda":{"name":"a","version":"2","build":"0"},
"b-1-0.conda":{"name":"b","version":"1","build":"0"}}}"#;

// What stands at the place, if anything, the status, what is written, and what the note says.
const RUNS: [(Option<&str>, u8, &str, &str); 7] = [
    (Some("{}"), OK, "names 0 files 0 written 0 kept 0\n", ""),
    (
        Some(THREE_FILES),
        OK,
        "names 2 files 3 written 2 kept 0\n",
        "",
    ),
    (None, BAD_FILE, "", "no file"),
    (Some("[]"), BAD_FILE, "", "json"),
    (Some(r#"{"packages":[]}"#), BAD_FILE, "", "json"),
    (
        Some(r#"{"packages":{"x":{"name":"x","version":"1"}}}"#),
        BAD_FILE,
        "",
        "x",
    ),
    (
        Some(r#"{"packages.conda":{"y":{"name":"x y","version":"1","build":"0"}}}"#),
        BAD_FILE,
        "",
        "y",
    ),
];

// Words that are not `index` and a place.
const NOT_INDEX: [&[&str]; 10] = [
    &["index"],
    &["index", "c"],
    &["index", "c/noarch", "c/noarch"],
    &["index", "c/noarch/x"],
    &["index", "../noarch"],
    &["index", "c/no.arch"],
    &["index", "/noarch"],
    &["Index", "c/noarch"],
    &["index", "-c/noarch"],
    &["index", "--/noarch"],
];

fn store_with(
    alloc: Global,
    input: Option<&str>,
    fails_from: Option<u64>,
) -> Result<MemStore, Fail> {
    let mut files = Vec::new(alloc);
    if let Some(input) = input {
        files.push((Text::copy(alloc, INPUT)?, input.as_bytes().to_vec(alloc)?))?;
    }
    Ok(MemStore::new(alloc, files, Vec::new(alloc), fails_from))
}

// What the note says of a place that can't be indexed.
fn said(note: &Note) -> &str {
    match note {
        Note::Nothing => "",
        Note::Shard(_) => "a shard",
        Note::File(_, _) => "a file",
        Note::Indexing(IndexFault::NoFile) => "no file",
        Note::Indexing(IndexFault::Json) => "json",
        Note::Indexing(IndexFault::Fields(file)) => file.as_str(),
        Note::Indexing(IndexFault::TooLong(Large::Input)) => "long input",
        Note::Indexing(IndexFault::TooLong(Large::Index)) => "long index",
        Note::Indexing(IndexFault::TooLong(Large::Shard(name))) => name.as_str(),
        Note::Indexing(IndexFault::StoreFault | IndexFault::Memory) => "no note",
    }
}

// Whether the note says this.
fn says(note: &Note, text: &str) -> bool {
    said(note) == text
}

#[test]
fn answers_by_the_file_that_stands_there(rt: HostRuntime) -> Result<(), Fail> {
    let alloc = rt.alloc();
    for (file, status, text, note) in RUNS {
        let words = words_of(alloc, &["index", PLACE])?;
        let mut input = source(alloc, Vec::new(alloc), 1, &[0])?;
        let mut out = sink(alloc, ROOM, usize::MAX, &[])?;
        let mut store = store_with(alloc, file, None)?;
        let answer = run_files(alloc, words.as_slice(), &mut input, &mut out, &mut store);
        assert_eq!(rt; answer.0, status, "{text}{note}");
        assert!(rt; says(&answer.1, note), "{text}{note}");
        assert_eq!(rt; out.written(), text.as_bytes(), "{note}");
        assert_eq!(rt; store.file(INDEX).is_some(), status == OK, "{note}");
    }
    Ok(())
}

#[test]
fn refuses_words_that_are_not_those_of_index(rt: HostRuntime) -> Result<(), Fail> {
    let alloc = rt.alloc();
    for line in NOT_INDEX {
        let words = words_of(alloc, line)?;
        let mut input = source(alloc, Vec::new(alloc), 1, &[0])?;
        let mut out = sink(alloc, ROOM, 1, &[0])?;
        let mut store = store_with(alloc, Some(THREE_FILES), Some(0))?;
        let answer = run_files(alloc, words.as_slice(), &mut input, &mut out, &mut store);
        assert_eq!(rt; answer.0, USAGE, "{line:?}");
        assert_eq!(rt; out.written(), [].as_slice(), "{line:?}");
    }
    Ok(())
}

#[test]
fn a_store_that_stops_leaves_no_index_and_nothing_written(rt: HostRuntime) -> Result<(), Fail> {
    let alloc = rt.alloc();
    // The calls are: get the input, then get and put each of two shards, and put the index.
    for stop in 0..7 {
        let words = words_of(alloc, &["index", PLACE])?;
        let mut input = source(alloc, Vec::new(alloc), 1, &[0])?;
        let mut out = sink(alloc, ROOM, usize::MAX, &[])?;
        let mut store = store_with(alloc, Some(THREE_FILES), Some(stop))?;
        let answer = run_files(alloc, words.as_slice(), &mut input, &mut out, &mut store);
        let status = if stop < 6 { STORE_FAULT } else { OK };
        assert_eq!(rt; answer.0, status, "a stop at call {stop}");
        assert!(rt; says(&answer.1, ""), "a stop at call {stop}");
        assert_eq!(rt; out.written().is_empty(), stop < 6, "a stop at call {stop}");
        assert_eq!(rt;
            store.file(INDEX).is_some(),
            stop == 6,
            "a stop at call {stop}"
        );
    }
    Ok(())
}

// The first run makes the calls 0 to 5. The second one gets the input and each of two shards, and puts
// the index: calls 6 to 9. One that put a shard again would come to call 10, which fails.
#[test]
fn a_kept_shard_is_not_put(rt: HostRuntime) -> Result<(), Fail> {
    let alloc = rt.alloc();
    let mut store = store_with(alloc, Some(THREE_FILES), Some(10))?;
    for line in [
        "names 2 files 3 written 2 kept 0\n",
        "names 2 files 3 written 0 kept 2\n",
    ] {
        let words = words_of(alloc, &["index", PLACE])?;
        let mut input = source(alloc, Vec::new(alloc), 1, &[0])?;
        let mut out = sink(alloc, ROOM, usize::MAX, &[])?;
        let answer = run_files(alloc, words.as_slice(), &mut input, &mut out, &mut store);
        assert_eq!(rt; answer.0, OK, "{line}");
        assert_eq!(rt; out.written(), line.as_bytes(), "{line}");
    }
    Ok(())
}

#[test]
fn a_write_that_fails_leaves_all_files_put(rt: HostRuntime) -> Result<(), Fail> {
    let alloc = rt.alloc();
    let words = words_of(alloc, &["index", PLACE])?;
    let mut input = source(alloc, Vec::new(alloc), 1, &[0])?;
    let mut out = sink(alloc, 7, usize::MAX, &[])?;
    let mut store = store_with(alloc, Some(THREE_FILES), None)?;
    let answer = run_files(alloc, words.as_slice(), &mut input, &mut out, &mut store);
    assert_eq!(rt; answer.0, WRITE_FAULT);
    assert_eq!(rt; out.written(), b"names 2".as_slice());
    assert!(rt; store.file(INDEX).is_some());
    Ok(())
}
