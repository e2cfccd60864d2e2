//! A place in memory that is indexed and then asked for its files.

use channel_indexer::index_subdir;
use channel_store::MemStore;
use digest_gate::{Body, Digest};
use http_head::{Frame, Reply, judge_head};
use mp_codec::Text;
use shard_file::Shard;
use shard_index::Index;
use shard_server::answer;
use std::alloc::Global;
use std::test::Fail;

// Three files of two names.
const THREE_FILES: &[u8] =
    br#"{"packages":{"a-1-0.tar.bz2":{"name":"a","version":"1","build":"0","depends":["b"]}},
"packages.conda":{"a-2-0.conda":{"name":"a","version":"2","build":"0"},"b-1-0.conda":{"name":"b","version":"1","build":"0"}}}"#;

// The place c/noarch with these files, indexed.
fn indexed(alloc: Global) -> Result<MemStore, Fail> {
    let name = Text::copy(alloc, "c/noarch/repodata.json")?;
    let mut files = Vec::new(alloc);
    files.push((name, THREE_FILES.to_vec(alloc)?))?;
    let mut store = MemStore::new(alloc, files, Vec::new(alloc), None);
    if index_subdir(alloc, &mut store, "c/noarch").is_err() {
        return Err("it is not indexed".into());
    }
    Ok(store)
}

// The file that is given at a path.
fn got(alloc: Global, store: &mut MemStore, path: &str) -> Result<Vec<u8>, Fail> {
    let served = answer(alloc, store, "GET", path)?;
    if served.status != 200 || served.size != served.body.len() as u64 {
        return Err("it is not given".into());
    }
    Ok(served.body)
}

// Whether a file is the body of the reply with its length.
fn is_body(alloc: Global, file: &[u8]) -> Result<bool, Fail> {
    let length = file.len() as u64;
    let head = format!(in alloc; "HTTP/1.1 200 OK\r\nContent-Length: {length}\r\n\r\n")?;
    let mut reply = head.as_bytes().to_vec(alloc)?;
    reply.extend_from_slice(file)?;
    let body = Reply::Body {
        head_len: head.len() as u64,
        frame: Frame::Length(length),
    };
    Ok(judge_head(&reply, true) == body)
}

// The digest that an index lists for a name.
fn listed(alloc: Global, index: &[u8], name: &str) -> Result<Digest, Fail> {
    let index = Index::read(alloc, index).ok().ok_or("no index")?;
    Ok(index.lookup(name).ok_or("not listed")?)
}

// How many records a shard with this digest has.
fn records(alloc: Global, bytes: Vec<u8>, digest: Digest) -> Result<usize, Fail> {
    let body = Body::check(bytes, digest).ok().ok_or("another digest")?;
    let shard = Shard::read(alloc, body.into_bytes())
        .ok()
        .ok_or("no shard")?;
    Ok(shard.len())
}

// How many records the shard of a name has that comes by the digest which the index lists.
fn given(alloc: Global, store: &mut MemStore, index: &[u8], name: &str) -> Result<usize, Fail> {
    let digest = listed(alloc, index, name)?;
    let digits = hex::encode(alloc, digest.0)?;
    let path = format!(in alloc; "/c/noarch/shards/{digits}.msgpack")?;
    let bytes = got(alloc, store, path.as_str())?;
    if !is_body(alloc, &bytes)? {
        return Err("it is no body".into());
    }
    records(alloc, bytes, digest)
}

// A name, and how many records it has.
const NAMES: [(&str, usize); 2] = [("a", 2), ("b", 1)];

#[test]
fn an_indexed_place_comes_back(rt: HostRuntime) -> Result<(), Fail> {
    let mut store = indexed(rt.alloc())?;
    let index = got(rt.alloc(), &mut store, "/c/noarch/repodata_shards.msgpack")?;
    assert!(rt; is_body(rt.alloc(), &index)?);
    for (name, count) in NAMES {
        assert!(rt;
            given(rt.alloc(), &mut store, &index, name)? == count,
            "{name}"
        );
    }
    Ok(())
}
