//! Answers by a store in memory that has an index, a shard and a `repodata.json` of one place.

use crate::{Served, answer};
use channel_store::MemStore;
use mp_codec::Text;
use std::alloc::Global;
use std::test::Fail;

const INDEX: &str = "c/noarch/repodata_shards.msgpack";

const SHARD: &str =
    "c/noarch/shards/0123456789abcdef0123456789abcdef0123456789abcdef0123456789abcdef.msgpack";

const INPUT: &str = "c/noarch/repodata.json";

// Paths of nothing that is served, though the files are there.
const HOSTILE: [&str; 62] = [
    "",
    "/",
    "*",
    "//",
    "/..",
    "/../..",
    "/c",
    "/c/",
    "/c/noarch",
    "/c/noarch/",
    "/c/noarch/repodata.json",
    "/c/noarch/shards",
    "/c/noarch/shards/",
    "c/noarch/repodata_shards.msgpack",
    "//c/noarch/repodata_shards.msgpack",
    "/c//noarch/repodata_shards.msgpack",
    "/c/noarch//repodata_shards.msgpack",
    "/c/noarch/repodata_shards.msgpack/",
    "/c/noarch/repodata_shards.msgpack/..",
    "/./c/noarch/repodata_shards.msgpack",
    "/c/./noarch/repodata_shards.msgpack",
    "/c/noarch/./repodata_shards.msgpack",
    "/./noarch/repodata_shards.msgpack",
    "/../noarch/repodata_shards.msgpack",
    "/../c/noarch/repodata_shards.msgpack",
    "/c/../c/noarch/repodata_shards.msgpack",
    "/c/noarch/../noarch/repodata_shards.msgpack",
    "/c/noarch/shards/../repodata_shards.msgpack",
    "/c/noarch/shards/../repodata.json",
    "/c/noarch/../../etc/passwd",
    "/../../../../etc/passwd",
    "/etc/passwd",
    "/c/%2e%2e/repodata_shards.msgpack",
    "/c/%2E%2E/repodata_shards.msgpack",
    "/%2e/noarch/repodata_shards.msgpack",
    "/c%2fnoarch/repodata_shards.msgpack",
    "/c/noarch%2frepodata_shards.msgpack",
    "/c/noarch/repodata%5fshards.msgpack",
    "/%63/noarch/repodata_shards.msgpack",
    "/c/noarch/repodata_shards.msgpack%00",
    "/c/noarch/repodata_shards.msgpack\0",
    "/c/noarch/repodata_shards.msgpack?x",
    "/c/noarch/repodata_shards.msgpack#x",
    "/c/noarch/repodata_shards.msgpack ",
    " /c/noarch/repodata_shards.msgpack",
    "/c/noarch/Repodata_shards.msgpack",
    "/C/noarch/repodata_shards.msgpack",
    "/c/NOARCH/repodata_shards.msgpack",
    "/c/noarch/repodata_shards.msgpack.zst",
    "/c\\noarch\\repodata_shards.msgpack",
    "\\c\\noarch\\repodata_shards.msgpack",
    "http://h/c/noarch/repodata_shards.msgpack",
    "/c/noarch/0.temporary",
    "/c/noarch/shards/0.temporary",
    "/c/noarch/shards/0123456789ABCDEF0123456789abcdef0123456789abcdef0123456789abcdef.msgpack",
    "/c/noarch/shards/123456789abcdef0123456789abcdef0123456789abcdef0123456789abcdef.msgpack",
    "/c/noarch/shards/00123456789abcdef0123456789abcdef0123456789abcdef0123456789abcdef.msgpack",
    "/c/noarch/shards/0123456789abcdef0123456789abcdef0123456789abcdef0123456789abcdeg.msgpack",
    "/c/noarch/shards/0123456789abcdef0123456789abcdef0123456789abcdef0123456789abcdef",
    "/c/noarch/shards/0123456789abcdef0123456789abcdef0123456789abcdef0123456789abcdef.MSGPACK",
    "/c/noarch/shards/0123456789abcdef0123456789abcdef0123456789abcdef0123456789abcdef.msgpack.x",
    "/c/noarch/repodata_shards.\u{e9}msgpack",
];

// Methods of requests that ask for no file.
const METHODS: [&str; 9] = [
    "", "get", "Get", "head", "POST", "PUT", "DELETE", "OPTIONS", "CONNECT",
];

// A store of the three files whose calls fail from this one on.
fn store(alloc: Global, fails_from: Option<u64>) -> Result<MemStore, Fail> {
    let mut files = Vec::new(alloc);
    for (name, bytes) in [(INDEX, b"index"), (SHARD, b"shard"), (INPUT, b"input")] {
        let bytes = bytes.as_slice().to_vec(alloc)?;
        files.push((Text::copy(alloc, name)?, bytes))?;
    }
    Ok(MemStore::new(alloc, files, Vec::new(alloc), fails_from))
}

// So many letters.
fn letters(alloc: Global, count: usize) -> Result<String, Fail> {
    let mut text = String::new(alloc);
    for _ in 0..count {
        text.push('a')?;
    }
    Ok(text)
}

// The name of the index of a channel with so many letters.
fn index_of(alloc: Global, count: usize) -> Result<String, Fail> {
    let channel = letters(alloc, count)?;
    Ok(format!(in alloc; "{channel}/noarch/repodata_shards.msgpack")?)
}

// Whether an answer has this status, this body and this size.
fn is_answer(served: &Served, status: u16, body: &[u8], size: u64) -> bool {
    served.status == status && served.body.as_slice() == body && served.size == size
}

// Whether a request is answered by this status without a body.
fn is_refused(
    alloc: Global,
    store: &mut MemStore,
    method: &str,
    path: &str,
    status: u16,
) -> Result<bool, Fail> {
    let served = answer(alloc, store, method, path)?;
    Ok(is_answer(&served, status, b"", 0))
}

#[test]
fn hostile_paths_name_no_file(rt: HostRuntime) -> Result<(), Fail> {
    let mut store = store(rt.alloc(), None)?;
    for path in HOSTILE {
        assert!(rt;
            is_refused(rt.alloc(), &mut store, "GET", path, 404)?,
            "{path}"
        );
    }
    Ok(())
}

#[test]
fn a_name_has_64_letters_at_most(rt: HostRuntime) -> Result<(), Fail> {
    let alloc = rt.alloc();
    let mut files = Vec::new(alloc);
    for count in [64, 65] {
        let name = index_of(alloc, count)?;
        files.push((
            Text::copy(alloc, &name)?,
            b"index".as_slice().to_vec(alloc)?,
        ))?;
    }
    let mut store = MemStore::new(alloc, files, Vec::new(alloc), None);
    let path = format!(in alloc; "/{}", index_of(alloc, 64)?)?;
    let served = answer(alloc, &mut store, "GET", &path)?;
    assert!(rt; is_answer(&served, 200, b"index", 5));
    for path in [
        format!(in alloc; "/{}", index_of(alloc, 65)?)?,
        format!(in alloc; "/{}", letters(alloc, 60_000)?)?,
    ] {
        assert!(rt; is_refused(alloc, &mut store, "GET", &path, 404)?);
    }
    Ok(())
}

#[test]
fn other_methods_are_refused_first(rt: HostRuntime) -> Result<(), Fail> {
    let mut store = store(rt.alloc(), Some(0))?;
    for method in METHODS {
        assert!(rt;
            is_refused(rt.alloc(), &mut store, method, "/x", 405)?,
            "{method}"
        );
    }
    Ok(())
}

#[test]
fn a_file_is_given_to_get_and_head(rt: HostRuntime) -> Result<(), Fail> {
    let alloc = rt.alloc();
    let mut store = store(alloc, Some(3))?;
    let index = answer(
        alloc,
        &mut store,
        "GET",
        "/c/noarch/repodata_shards.msgpack",
    )?;
    assert!(rt; is_answer(&index, 200, b"index", 5));
    let head = answer(
        alloc,
        &mut store,
        "HEAD",
        "/c/noarch/repodata_shards.msgpack",
    )?;
    assert!(rt; is_answer(&head, 200, b"", 5));
    assert!(rt;
        is_refused(
            alloc,
            &mut store,
            "GET",
            "/c/x/repodata_shards.msgpack",
            404
        )?
    );
    assert!(rt;
        is_refused(
            alloc,
            &mut store,
            "GET",
            "/c/noarch/repodata_shards.msgpack",
            503
        )?
    );
    Ok(())
}
