//! Runs over a store in memory: what is put, what is refused, and where a failing store stops it.
use crate::{IndexFault, Large, Summary, index_subdir};
use channel_store::{MemStore, Store};
use digest_gate::Digest;
use mp_codec::Text;
use shard_index::Index;
use std::alloc::Global;
use std::test::Fail;

const PLACE: &str = "c/noarch";

const INPUT: &str = "c/noarch/repodata.json";

const INDEX: &str = "c/noarch/repodata_shards.msgpack";

// The index of no names, in hexadecimal digits.
const EMPTY_INDEX: &str =
    "83a776657273696f6e01a4696e666f83a8626173655f75726ca22e2faf7368617264735f626173655f75726ca92e2f7368617264732fa6737562646972a66e6f61726368a673686172647380";

// Three files of two names.
const THREE_FILES: &str =
    r#"{"packages":{"a-1-0.tar.bz2":{"name":"a","version":"1","build":"0","depends":["b"]}},
"packages.conda":{"a-2-0.conda":{"name":"A","version":"2","build":"0"},"b-1-0.conda":{"name":"b","version":"1","build":"0"}}}"#;

fn store_with(
    alloc: Global,
    input: &str,
    old_index: Option<&[u8]>,
    fails_from: Option<u64>,
) -> Result<MemStore, Fail> {
    let mut files = Vec::new(alloc);
    files.push((Text::copy(alloc, INPUT)?, input.as_bytes().to_vec(alloc)?))?;
    if let Some(index) = old_index {
        files.push((Text::copy(alloc, INDEX)?, index.to_vec(alloc)?))?;
    }
    Ok(MemStore::new(alloc, files, Vec::new(alloc), fails_from))
}

// What was answered, in a text.
fn told(alloc: Global, answer: &Result<Summary, IndexFault>) -> Result<String, Fail> {
    Ok(match answer {
        Ok(done) => {
            let Summary {
                names,
                files,
                written,
                kept,
            } = *done;
            format!(in alloc; "names {names} files {files} written {written} kept {kept}")?
        }
        Err(IndexFault::NoFile) => String::from_str(alloc, "no file")?,
        Err(IndexFault::Json) => String::from_str(alloc, "json")?,
        Err(IndexFault::Fields(file)) => String::from_str(alloc, file.as_str())?,
        Err(IndexFault::StoreFault) => String::from_str(alloc, "store")?,
        Err(IndexFault::TooLong(Large::Input)) => String::from_str(alloc, "long input")?,
        Err(IndexFault::TooLong(Large::Index)) => String::from_str(alloc, "long index")?,
        Err(IndexFault::TooLong(Large::Shard(name))) => String::from_str(alloc, name.as_str())?,
        Err(IndexFault::Memory) => String::from_str(alloc, "memory")?,
    })
}

// An input, and what is answered.
const ANSWERS: [(&str, &str); 20] = [
    ("{}", "names 0 files 0 written 0 kept 0"),
    (THREE_FILES, "names 2 files 3 written 2 kept 0"),
    ("[]", "json"),
    ("", "json"),
    ("{", "json"),
    (r#"{"packages":[]}"#, "json"),
    (r#"{"packages.conda":null}"#, "json"),
    (r#"{"packages":{"x":{"name":"x","version":"1"}}}"#, "x"),
    (
        r#"{"packages":{"x":{"name":"x y","version":"1","build":"0"}}}"#,
        "x",
    ),
    (
        r#"{"packages":{"x":{"name":"","version":"1","build":"0"}}}"#,
        "x",
    ),
    (
        r#"{"packages":{"y":{},"x":{"name":"x"}},"packages.conda":{"a":{}}}"#,
        "x",
    ),
    (
        r#"{"packages":{"y":{"name":"y","version":"1","build":"0"}},"packages.conda":{"a":{}}}"#,
        "a",
    ),
    (
        r#"{"packages":{"y":{"name":"y","version":"1","build":"0"}},"other":7}"#,
        "names 1 files 1 written 1 kept 0",
    ),
    (
        r#"{"packages":{"y":{"name":"Y","version":"1","build":"0"}},"packages.conda":{"y":{"name":"y","version":"2","build":"0"}}}"#,
        "names 1 files 2 written 1 kept 0",
    ),
    // Files whose keys don't ascend, and those with a key twice.
    (
        r#"{"packages":{"b":{"name":"b","version":"1","build":"0"},"a":{"name":"a","version":"1","build":"0"}}}"#,
        "names 2 files 2 written 2 kept 0",
    ),
    (
        r#"{"packages":{"a":{"name":"a","version":"1","build":"0"},"a":{"name":"b","version":"1","build":"0"}}}"#,
        "names 1 files 1 written 1 kept 0",
    ),
    (
        r#"{"packages":{"a":{"name":"a","version":"1","build":"0"}},"packages":{}}"#,
        "names 0 files 0 written 0 kept 0",
    ),
    // Numbers out of range, behind the parts and in front of them.
    (r#"{"info":1e999,"packages":{}}"#, "json"),
    (
        r#"{"packages":{"a":{"name":"a","version":"1","build":"0"}},"repodata_version":1e999}"#,
        "json",
    ),
    // More behind the object.
    (r#"{"packages":{}}{}"#, "json"),
];

#[test]
fn answers_by_the_stored_bytes(rt: HostRuntime) -> Result<(), Fail> {
    let alloc = rt.alloc();
    for (input, expected) in ANSWERS {
        let mut store = store_with(alloc, input, None, None)?;
        let answer = index_subdir(alloc, &mut store, PLACE);
        assert_eq!(rt; told(alloc, &answer)?.as_str(), expected, "{input}");
    }
    Ok(())
}

#[test]
fn an_empty_file_has_an_index_of_no_names(rt: HostRuntime) -> Result<(), Fail> {
    let alloc = rt.alloc();
    let mut store = store_with(alloc, "{}", None, None)?;
    let answer = index_subdir(alloc, &mut store, PLACE);
    assert!(rt; answer.is_ok());
    let index = store.file(INDEX).ok_or("no index")?;
    let digits = hex::encode(alloc, index)?;
    assert_eq!(rt; digits.as_str(), EMPTY_INDEX);
    Ok(())
}

#[test]
fn no_file_and_a_store_that_fails(rt: HostRuntime) -> Result<(), Fail> {
    let alloc = rt.alloc();
    let mut empty = MemStore::new(alloc, Vec::new(alloc), Vec::new(alloc), None);
    let answer = index_subdir(alloc, &mut empty, PLACE);
    assert_eq!(rt; told(alloc, &answer)?.as_str(), "no file");
    let mut failing = store_with(alloc, "{}", None, Some(0))?;
    let answer = index_subdir(alloc, &mut failing, PLACE);
    assert_eq!(rt; told(alloc, &answer)?.as_str(), "store");
    Ok(())
}

// The name of the shard that an index lists for a package name.
fn shard_of(alloc: Global, index: &[u8], name: &str) -> Result<String, Fail> {
    let index = Index::read(alloc, index).ok().ok_or("no index")?;
    let Digest(bytes) = index.lookup(name).ok_or("not listed")?;
    let digits = hex::encode(alloc, bytes)?;
    Ok(format!(in alloc; "c/noarch/shards/{digits}.msgpack")?)
}

#[test]
fn a_second_run_keeps_the_shards(rt: HostRuntime) -> Result<(), Fail> {
    let alloc = rt.alloc();
    let mut store = store_with(alloc, THREE_FILES, None, None)?;
    let answer = index_subdir(alloc, &mut store, PLACE);
    assert_eq!(rt;
        told(alloc, &answer)?.as_str(),
        "names 2 files 3 written 2 kept 0"
    );
    let again = index_subdir(alloc, &mut store, PLACE);
    assert_eq!(rt;
        told(alloc, &again)?.as_str(),
        "names 2 files 3 written 0 kept 2"
    );
    for name in ["a", "b"] {
        let index = store.file(INDEX).ok_or("no index")?;
        let shard = shard_of(alloc, index, name)?;
        assert!(rt; store.file(shard.as_str()).is_some(), "{name}");
        store.remove(alloc, shard.as_str()).ok().ok_or("no remove")?;
    }
    let third = index_subdir(alloc, &mut store, PLACE);
    assert_eq!(rt;
        told(alloc, &third)?.as_str(),
        "names 2 files 3 written 2 kept 0"
    );
    Ok(())
}

// A store with the files of another one that have these names.
fn same_files(alloc: Global, store: &MemStore, names: &[&str]) -> Result<MemStore, Fail> {
    let mut files = Vec::new(alloc);
    for name in names {
        if let Some(bytes) = store.file(name) {
            files.push((Text::copy(alloc, name)?, bytes.to_vec(alloc)?))?;
        }
    }
    Ok(MemStore::new(alloc, files, Vec::new(alloc), None))
}

#[test]
fn a_stop_leaves_the_old_index_or_all_of_the_new(rt: HostRuntime) -> Result<(), Fail> {
    let alloc = rt.alloc();
    let mut whole = store_with(alloc, THREE_FILES, None, None)?;
    assert!(rt; index_subdir(alloc, &mut whole, PLACE).is_ok());
    let new = whole.file(INDEX).ok_or("no index")?;
    let shard_a = shard_of(alloc, new, "a")?;
    let shard_b = shard_of(alloc, new, "b")?;
    let names = [INPUT, INDEX, shard_a.as_str(), shard_b.as_str()];
    let old = hex::decode(alloc, EMPTY_INDEX).ok().ok_or("no digits")?;
    for old_index in [None, Some(old.as_slice())] {
        for stop in 0..8 {
            let mut store = store_with(alloc, THREE_FILES, old_index, Some(stop))?;
            let answer = index_subdir(alloc, &mut store, PLACE);
            assert_eq!(rt; answer.is_ok(), stop >= 6, "a stop at call {stop}");
            let index = store.file(INDEX);
            if stop < 6 {
                assert!(rt; index == old_index, "the index at call {stop}");
            }
            let mut again = same_files(alloc, &store, names.as_slice())?;
            assert!(rt; index_subdir(alloc, &mut again, PLACE).is_ok());
            for name in names {
                assert!(rt;
                    again.file(name) == whole.file(name),
                    "{name} after call {stop}"
                );
            }
        }
    }
    Ok(())
}

// A plain file, and the same one with its keys in other orders.
const PLAIN: &str = r#"{"info":{"subdir":"noarch"},
"packages":{"a-1-0.tar.bz2":{"name":"a","version":"1","build":"0"},"b-1-0.tar.bz2":{"name":"b","version":"1","build":"0"}},
"packages.conda":{"a-2-0.conda":{"name":"a","version":"2","build":"0"}},"removed":[]}"#;

const OTHER_ORDERS: [&str; 2] = [
    r#"{"removed":[],"packages.conda":{"a-2-0.conda":{"name":"a","version":"2","build":"0"}},
"packages":{"a-1-0.tar.bz2":{"name":"a","version":"1","build":"0"},"b-1-0.tar.bz2":{"name":"b","version":"1","build":"0"}},
"info":{"subdir":"noarch"}}"#,
    r#"{"info":{"subdir":"noarch"},
"packages":{"b-1-0.tar.bz2":{"name":"b","version":"1","build":"0"},"a-1-0.tar.bz2":{"build":"0","version":"1","name":"a"}},
"packages.conda":{"a-2-0.conda":{"name":"a","version":"2","build":"0"}},"removed":[]}"#,
];

#[test]
fn the_order_of_keys_makes_no_difference(rt: HostRuntime) -> Result<(), Fail> {
    let alloc = rt.alloc();
    let mut plain = store_with(alloc, PLAIN, None, None)?;
    let answer = index_subdir(alloc, &mut plain, PLACE);
    assert_eq!(rt;
        told(alloc, &answer)?.as_str(),
        "names 2 files 3 written 2 kept 0"
    );
    let index = plain.file(INDEX).ok_or("no index")?;
    let shard_a = shard_of(alloc, index, "a")?;
    let shard_b = shard_of(alloc, index, "b")?;
    for input in OTHER_ORDERS {
        let mut other = store_with(alloc, input, None, None)?;
        let answer = index_subdir(alloc, &mut other, PLACE);
        assert_eq!(rt;
            told(alloc, &answer)?.as_str(),
            "names 2 files 3 written 2 kept 0"
        );
        for name in [INDEX, shard_a.as_str(), shard_b.as_str()] {
            assert!(rt; other.file(name) == plain.file(name), "{name}");
        }
    }
    Ok(())
}
