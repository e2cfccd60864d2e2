//! Channels in a store in memory, and runs of `index` and `closure` over them.

use crate::tests::ROOM;
use crate::{bytes_of, sink, source, words_of};
use channel_store::{MemStore, Store};
use gateway_tool::{Note, run_files};
use link_io::{MemSink, MemSource};
use mp_codec::Text;
use std::alloc::{AllocError, Global};
use std::test::Fail;

/// Three files of two names.
pub const THREE_FILES: &str =
    r#"{"packages":{"a-1-0.tar.bz2":{"name":"a","version":"1","build":"0","depends":["b"]}},
"packages.conda":{"a-2-0.conda":{"name":"a","version":"2","build":"0"},
"b-1-0.conda":{"name":"b","version":"1","build":"0"}}}"#;

/// Places and their repodata.json. `c`: these files. `conda-forge`: two subdirs. `l`: a
/// name that depends on itself, on one that depends on it, and on one that no index lists. `t`: twins.
/// `A` and `B`: two channels that list one name. `w`: a record that depends on 71 names, in no order.
pub const CHANNELS: [(&str, &str); 8] = [
    ("c/noarch", THREE_FILES),
    (
        "conda-forge/linux-64",
        r#"{"packages.conda":{
"numpy-1.25.0-py311h0_0.conda":{"name":"numpy","version":"1.25.0","build":"py311h0_0"},
"numpy-1.26.4-py312h0_0.conda":{"name":"numpy","version":"1.26.4","build":"py312h0_0","depends":[
"python >=3.12,<3.13.0a0","python_abi 3.12.* *_cp312","libblas >=3.9.0,<4.0a0","__glibc >=2.17"]},
"python-3.12.1-h1_0_cpython.conda":{"name":"python","version":"3.12.1","build":"h1_0_cpython"},
"libblas-3.9.0-20_openblas.conda":{"name":"libblas","version":"3.9.0","build":"20_openblas",
"build_number":20}}}"#,
    ),
    (
        "conda-forge/noarch",
        r#"{"packages.conda":{"python_abi-3.12-4_cp312.conda":{"name":"python_abi","version":"3.12",
"build":"4_cp312","build_number":4,"depends":["python 3.12.*"]}}}"#,
    ),
    (
        "l/noarch",
        r#"{"packages.conda":{"a-1-0.conda":{"name":"a","version":"1.0","build":"0","depends":["a",
"b","nowhere"]},"b-1-0.conda":{"name":"b","version":"1.0","build":"0","depends":["a"]},
"b-2-0.conda":{"name":"b","version":"2.0","build":"0"}}}"#,
    ),
    (
        "t/noarch",
        r#"{"packages":{"x-1-0.tar.bz2":{"name":"x","version":"1","build":"0","depends":["y"]},
"x-2-0.tar.bz2":{"name":"x","version":"2","build":"0"}},"packages.conda":{
"x-1-0.conda":{"name":"x","version":"1","build":"0"},
"y-1-0.conda":{"name":"y","version":"1","build":"0"}}}"#,
    ),
    (
        "A/noarch",
        r#"{"packages.conda":{"x-1-0.conda":{"name":"x","version":"1.0","build":"0"}}}"#,
    ),
    (
        "B/noarch",
        r#"{"packages.conda":{"x-2-0.conda":{"name":"x","version":"2.0","build":"0"},
"y-1-0.conda":{"name":"y","version":"1.0","build":"0"}}}"#,
    ),
    (
        "w/noarch",
        r#"{"packages.conda":{"a-1-0.conda":{"name":"a","version":"1","build":"0","depends":[
"z9","z8","z7","z6","z5","z4","z3","z2","z1","z0","y9","y8","y7","y6","y5","y4","y3","y2",
"y1","y0","x9","x8","x7","x6","x5","x4","x3","x2","x1","x0","w9","w8","w7","w6","w5","w4",
"w3","w2","w1","w0","B >=1","v9","v8","v7","v6","v5","v4","v3","v2","v1","v0","u9","u8","u7",
"u6","u5","u4","u3","u2","u1","u0","t9","t8","t7","t6","t5","t4","t3","t2","t1","t0"]},
"b-1-0.conda":{"name":"b","version":"1","build":"0","depends":["a"]},
"z9-1-0.conda":{"name":"z9","version":"1","build":"0"}}}"#,
    ),
];

/// The index of `c`.
pub const INDEX: &str = "c/noarch/repodata_shards.msgpack";

/// The shard of `b` in `c`: 97 bytes as docs/FORMATS.md writes them, and their SHA-256 by Python's
/// hashlib. So are the digests in the other names and bytes here.
pub const SHARD: &str =
    "c/noarch/shards/002982ea29af2d914f2e3437a96bc86536daef40ee6ac83c8dd339b2e1557a89.msgpack";

/// Files that were written by hand. The index of `h` lists `A`, in upper case, and `b`, whose shard has
/// two files with one text before their endings: the one in `packages` is of `b` and depends on `A` and
/// `z`, the other one is of `z`. The index of `k` lists `b`, whose file there is no shard.
pub const BY_HAND: [(&str, &str); 4] = [
    (
        "h/noarch/repodata_shards.msgpack",
        "81 a6 736861726473 82
        a1 41 c4 20 0000000000000000000000000000000000000000000000000000000000000000
        a1 62 c4 20 c227c25b2c6d1ab361cb5fe62d9a9e52cfb1f83a10914536e93674a70802972e",
    ),
    (
        "h/noarch/shards/c227c25b2c6d1ab361cb5fe62d9a9e52cfb1f83a10914536e93674a70802972e.msgpack",
        "83
        a8 7061636b61676573 81 ad 622d312d302e7461722e627a32 85
            a4 6e616d65 a1 62 a7 76657273696f6e a1 31 a5 6275696c64 a1 30
            ac 6275696c645f6e756d626572 00 a7 646570656e6473 92 a1 41 a1 7a
        ae 7061636b616765732e636f6e6461 81 ab 622d312d302e636f6e6461 85
            a4 6e616d65 a1 7a a7 76657273696f6e a1 31 a5 6275696c64 a1 30
            ac 6275696c645f6e756d626572 00 a7 646570656e6473 90
        a7 72656d6f766564 90",
    ),
    (
        "k/noarch/repodata_shards.msgpack",
        "81 a6 736861726473 81
        a1 62 c4 20 9e076ceaf246b6003d9c2680a2b4cf0bffd069805902b0b5edeebf49039fe4bd",
    ),
    (
        "k/noarch/shards/9e076ceaf246b6003d9c2680a2b4cf0bffd069805902b0b5edeebf49039fe4bd.msgpack",
        "90",
    ),
];

/// A store with these channels, indexed, and these files.
pub fn channels(alloc: Global) -> Result<MemStore, Fail> {
    let mut store = MemStore::new(alloc, Vec::new(alloc), Vec::new(alloc), None);
    for (place, json) in CHANNELS {
        put_input(alloc, &mut store, place, json)?;
        index(alloc, &mut store, place)?;
    }
    for (name, hex) in BY_HAND {
        put(alloc, &mut store, name, &bytes_of(alloc, hex)?)?;
    }
    Ok(store)
}

/// Puts the repodata.json of a place.
pub fn put_input(alloc: Global, store: &mut MemStore, place: &str, json: &str) -> Result<(), Fail> {
    let name = format!(in alloc; "{place}/repodata.json")?;
    put(alloc, store, name.as_str(), json.as_bytes())
}

/// Puts a file.
pub fn put(alloc: Global, store: &mut MemStore, name: &str, bytes: &[u8]) -> Result<(), Fail> {
    if !channel_store::is_store_name(name) {
        return Err("it is a store name".into());
    }
    store.put(alloc, name, bytes).ok().ok_or("it is put")?;
    Ok(())
}

/// Takes a file away.
pub fn take(alloc: Global, store: &mut MemStore, name: &str) -> Result<(), Fail> {
    if !channel_store::is_store_name(name) {
        return Err("it is a store name".into());
    }
    store.remove(alloc, name).ok().ok_or("it is taken away")?;
    Ok(())
}

/// The status of `index` at a place.
pub fn index(alloc: Global, store: &mut MemStore, place: &str) -> Result<u8, AllocError> {
    let words = words_of(alloc, &["index", place])?;
    let mut input = source(alloc, Vec::new(alloc), 1, &[])?;
    let mut out = sink(alloc, ROOM, usize::MAX, &[])?;
    Ok(run_files(alloc, words.as_slice(), &mut input, &mut out, store).0)
}

/// What `closure` with these options answers on an input. Its text goes into `out`.
pub fn closure<S: Store>(
    alloc: Global,
    store: &mut S,
    options: &[&str],
    input: &mut MemSource,
    out: &mut MemSink,
) -> Result<(u8, Note), AllocError> {
    let mut words = words_of(alloc, &["closure"])?;
    for option in options {
        words.push(Text::copy(alloc, option)?)?;
    }
    Ok(run_files(alloc, words.as_slice(), input, out, store))
}

/// Whether `closure` with these options ends so on an input: with this status, no note, and this text.
pub fn is_answered(
    alloc: Global,
    store: &mut MemStore,
    options: &[&str],
    input: &[u8],
    status: u8,
    text: &str,
) -> Result<bool, AllocError> {
    let mut input = source(alloc, input.to_vec(alloc)?, usize::MAX, &[])?;
    let mut out = sink(alloc, ROOM, usize::MAX, &[])?;
    let answer = closure(alloc, store, options, &mut input, &mut out)?;
    Ok(has_no_note(&answer.1) && answer.0 == status && out.written() == text.as_bytes())
}

// Whether a note says nothing.
fn has_no_note(note: &Note) -> bool {
    match note {
        Note::Nothing => true,
        Note::Shard(_) | Note::Indexing(_) | Note::File(_, _) => false,
    }
}
