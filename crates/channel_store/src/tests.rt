//! Runs over a store in memory and over a folder, and the names of places.
use crate::{
    FolderStore, Got, MemStore, Store, StoreRefusal, is_channel_name, is_place, is_served_name,
    is_shard_name, is_store_name, is_subdir_name, subdir_of,
};
use mp_codec::Text;
use std::alloc::Global;
use std::fs::{self, File};
use std::os::unix::fs::symlink;
use std::test::Fail;

const MOST: u64 = 1 << 20;

const LONGEST: &str = "a234567890123456789012345678901234567890123456789012345678901234";

const TOO_LONG: &str = "a2345678901234567890123456789012345678901234567890123456789012345";

// A text, whether it is a channel name, and whether it is a subdir name.
const NAMES: [(&str, bool, bool); 12] = [
    ("", false, false),
    ("c", true, true),
    ("linux-64", true, true),
    ("conda_forge.2", true, false),
    (".", false, false),
    ("..", false, false),
    ("...", true, false),
    (".x", true, false),
    ("a b", false, false),
    ("a/b", false, false),
    (LONGEST, true, true),
    (TOO_LONG, false, false),
];

#[test]
fn knows_channels_and_subdirs(rt: HostRuntime) {
    for (text, channel, subdir) in NAMES {
        assert_eq!(rt; is_channel_name(text), channel, "the channel {text}");
        assert_eq!(rt; is_subdir_name(text), subdir, "the subdir {text}");
    }
}

// A text, whether it is a place, and its subdir.
const PLACES: [(&str, bool, &str); 9] = [
    ("c/noarch", true, "noarch"),
    ("conda-forge.1/linux-64", true, "linux-64"),
    ("", false, ""),
    ("c", false, ""),
    ("c/", false, ""),
    ("/noarch", false, "noarch"),
    ("../noarch", false, "noarch"),
    ("c/..", false, ".."),
    ("c/noarch/x", false, "noarch/x"),
];

#[test]
fn knows_places(rt: HostRuntime) {
    for (text, place, subdir) in PLACES {
        assert_eq!(rt; is_place(text), place, "the place {text}");
        assert_eq!(rt; subdir_of(text), subdir, "the subdir of {text}");
    }
}

const INPUT: &str = "c/noarch/repodata.json";

const INDEX: &str = "c/noarch/repodata_shards.msgpack";

const SHARD: &str =
    "c/noarch/shards/0123456789abcdef0123456789abcdef0123456789abcdef0123456789abcdef.msgpack";

// A text, whether it is a store name, and whether it is one that is served.
const STORE_NAMES: [(&str, bool, bool); 15] = [
    (INPUT, true, false),
    (INDEX, true, true),
    (SHARD, true, true),
    ("c/shards/repodata_shards.msgpack", true, true),
    ("", false, false),
    ("c/noarch", false, false),
    ("c/noarch/", false, false),
    ("c/noarch/repodata.json.temporary", false, false),
    ("c/noarch/0.temporary", false, false),
    ("../../etc/passwd", false, false),
    ("../noarch/repodata.json", false, false),
    ("c/noarch/x/repodata.json", false, false),
    ("c/noarch/shards/0123.msgpack", false, false),
    (
        "c/noarch/shards/0123456789ABCDEF0123456789abcdef0123456789abcdef0123456789abcdef.msgpack",
        false,
        false,
    ),
    (
        "c/noarch/shards/0123456789abcdef0123456789abcdef0123456789abcdef0123456789abcdef.msgpack.x",
        false,
        false,
    ),
];

#[test]
fn knows_store_names(rt: HostRuntime) {
    for (text, stored, served) in STORE_NAMES {
        assert_eq!(rt; is_store_name(text), stored, "the store name {text}");
        assert_eq!(rt; is_served_name(text), served, "the served name {text}");
    }
    assert!(rt; is_shard_name(SHARD));
    assert!(rt; !is_shard_name(INDEX));
}

fn store(alloc: Global, fails: &[u64], fails_from: Option<u64>) -> Result<MemStore, Fail> {
    let mut files = Vec::new(alloc);
    files.push((Text::copy(alloc, INPUT)?, b"first".to_vec(alloc)?))?;
    files.push((Text::copy(alloc, INDEX)?, b"".to_vec(alloc)?))?;
    Ok(MemStore::new(alloc, files, fails.to_vec(alloc)?, fails_from))
}

// What a get gave, in a word: the bytes of a file as text.
fn told(got: &Result<Got, StoreRefusal>) -> &str {
    match got {
        Ok(Got::Absent) => "absent",
        Ok(Got::Long) => "long",
        Ok(Got::Bytes(bytes)) => str::from_utf8(bytes).unwrap_or("no text"),
        Err(StoreRefusal::Failed) => "failed",
        Err(StoreRefusal::Memory) => "memory",
    }
}

// Whether a get of a store name gives this.
fn gives<S: Store>(alloc: Global, store: &mut S, name: &str, limit: u64, expected: &str) -> bool {
    is_store_name(name) && told(&store.get(alloc, name, limit)) == expected
}

// Whether a put at a store name answers this.
fn puts<S: Store>(
    alloc: Global,
    store: &mut S,
    name: &str,
    bytes: &[u8],
    expected: Result<(), StoreRefusal>,
) -> bool {
    is_store_name(name) && store.put(alloc, name, bytes) == expected
}

// Whether a removal of a store name answers this.
fn removes<S: Store>(
    alloc: Global,
    store: &mut S,
    name: &str,
    expected: Result<(), StoreRefusal>,
) -> bool {
    is_store_name(name) && store.remove(alloc, name) == expected
}

const FAILED: Result<(), StoreRefusal> = Err(StoreRefusal::Failed);

// A name, a limit, and what stands there.
const GETS: [(&str, u64, &str); 5] = [
    (INPUT, MOST, "first"),
    (INPUT, 5, "first"),
    (INPUT, 4, "long"),
    (INDEX, 0, ""),
    (SHARD, MOST, "absent"),
];

#[test]
fn gets_what_stands_within_the_limit(rt: HostRuntime) -> Result<(), Fail> {
    let mut store = store(rt.alloc(), &[], None)?;
    for (name, limit, expected) in GETS {
        assert!(rt;
            gives(rt.alloc(), &mut store, name, limit, expected),
            "{name} within {limit}"
        );
    }
    Ok(())
}

// Whether a store in memory has these bytes at a name.
fn holds(store: &MemStore, name: &str, bytes: &[u8]) -> bool {
    match store.file(name) {
        Some(file) => file == bytes,
        None => false,
    }
}

#[test]
fn puts_and_takes_away(rt: HostRuntime) -> Result<(), Fail> {
    let alloc = rt.alloc();
    let mut store = store(alloc, &[], None)?;
    assert!(rt; puts(alloc, &mut store, INPUT, b"second", Ok(())));
    assert!(rt; puts(alloc, &mut store, SHARD, b"new", Ok(())));
    assert!(rt; holds(&store, INPUT, b"second"));
    assert!(rt; holds(&store, SHARD, b"new"));
    assert!(rt; holds(&store, INDEX, b""));
    for name in [INPUT, INDEX, SHARD, "d/noarch/repodata.json"] {
        assert!(rt; removes(alloc, &mut store, name, Ok(())), "{name}");
        assert!(rt; store.file(name).is_none(), "{name}");
    }
    Ok(())
}

// The numbers of the calls that fail, the number from which on all do, and what six gets give.
const SCRIPTS: [(&[u64], Option<u64>, [bool; 6]); 4] = [
    (&[], None, [false; 6]),
    (&[0, 3], None, [true, false, false, true, false, false]),
    (&[1], Some(4), [false, true, false, false, true, true]),
    (&[], Some(0), [true; 6]),
];

#[test]
fn fails_where_the_script_says(rt: HostRuntime) -> Result<(), Fail> {
    for (fails, from, expected) in SCRIPTS {
        let mut store = store(rt.alloc(), fails, from)?;
        for failed in expected {
            let wanted = if failed { "failed" } else { "first" };
            assert!(rt; gives(rt.alloc(), &mut store, INPUT, MOST, wanted));
        }
    }
    Ok(())
}

#[test]
fn a_call_that_fails_changes_nothing_in_memory(rt: HostRuntime) -> Result<(), Fail> {
    let alloc = rt.alloc();
    let mut store = store(alloc, &[], Some(0))?;
    assert!(rt; puts(alloc, &mut store, INPUT, b"second", FAILED));
    assert!(rt; removes(alloc, &mut store, INPUT, FAILED));
    assert!(rt; holds(&store, INPUT, b"first"));
    Ok(())
}

// Whether a name that isn't taken takes one text after the other, and is free again.
fn takes_and_gives_back<S: Store>(alloc: Global, store: &mut S, name: &str) -> bool {
    gives(alloc, store, name, MOST, "absent")
        && takes(alloc, store, name, "one")
        && takes(alloc, store, name, "another")
        && gives(alloc, store, name, 6, "long")
        && is_freed(alloc, store, name)
        && is_freed(alloc, store, name)
}

fn takes<S: Store>(alloc: Global, store: &mut S, name: &str, text: &str) -> bool {
    puts(alloc, store, name, text.as_bytes(), Ok(())) && gives(alloc, store, name, 7, text)
}

fn is_freed<S: Store>(alloc: Global, store: &mut S, name: &str) -> bool {
    removes(alloc, store, name, Ok(())) && gives(alloc, store, name, MOST, "absent")
}

const KEPT: [&str; 2] = [
    "made-by-a-test/noarch/shards/0123456789abcdef0123456789abcdef0123456789abcdef0123456789abcdef.msgpack",
    "made-by-a-test/noarch/repodata_shards.msgpack",
];

#[test]
fn a_folder_keeps_whole_files(rt: HostRuntime) -> Result<(), Fail> {
    let mut store = FolderStore::new(rt);
    for name in KEPT {
        assert!(rt;
            takes_and_gives_back(rt.alloc(), &mut store, name),
            "{name}"
        );
    }
    assert!(rt; !fs::exists(&rt, "made-by-a-test/noarch/0.temporary")?);
    assert!(rt; !fs::exists(&rt, "made-by-a-test/noarch/shards/0.temporary")?);
    fs::remove_dir_all(&rt, "made-by-a-test")?;
    Ok(())
}

// Whether nothing can be read or written at a name.
fn is_closed<S: Store>(alloc: Global, store: &mut S, name: &str) -> bool {
    gives(alloc, store, name, MOST, "failed") && puts(alloc, store, name, b"", FAILED)
}

#[test]
fn a_folder_is_no_file_and_a_file_no_folder(rt: HostRuntime) -> Result<(), Fail> {
    let mut store = FolderStore::new(rt);
    let index = "no-file/noarch/repodata_shards.msgpack";
    fs::create_dir_all(&rt, index)?;
    assert!(rt; is_closed(rt.alloc(), &mut store, index));
    assert!(rt; !fs::exists(&rt, "no-file/noarch/0.temporary")?);
    fs::write(&rt, "no-file/osx-64", b"a file")?;
    assert!(rt;
        is_closed(
            rt.alloc(),
            &mut store,
            "no-file/osx-64/repodata_shards.msgpack"
        )
    );
    fs::remove_dir_all(&rt, "no-file")?;
    Ok(())
}

// Whether a file of the system has these bytes.
fn is_file_of(rt: &HostRuntime, path: &str, bytes: &[u8]) -> Result<bool, Fail> {
    Ok(fs::read(rt, path)?.as_slice() == bytes)
}

// A folder with a link at an index's name and one at that of a temporary file.
fn link(rt: &HostRuntime, index: &str) -> Result<(), Fail> {
    fs::create_dir_all(rt, "links/noarch")?;
    fs::write(rt, "links/elsewhere", b"kept")?;
    symlink(rt, "../elsewhere", index)?;
    symlink(rt, "../elsewhere", "links/noarch/0.temporary")?;
    Ok(())
}

// A link at a store's name is replaced; one at the name of a temporary file is passed over. What they
// point to stays as it was.
#[test]
fn no_link_is_followed_by_a_put(rt: HostRuntime) -> Result<(), Fail> {
    let mut store = FolderStore::new(rt);
    let index = "links/noarch/repodata_shards.msgpack";
    link(&rt, index)?;
    assert!(rt; gives(rt.alloc(), &mut store, index, MOST, "kept"));
    assert!(rt; takes(rt.alloc(), &mut store, index, "new"));
    assert!(rt; fs::symlink_metadata(&rt, index)?.is_file());
    assert!(rt; fs::symlink_metadata(&rt, "links/noarch/0.temporary")?.is_symlink());
    assert!(rt; is_file_of(&rt, "links/elsewhere", b"kept")?);
    fs::remove_dir_all(&rt, "links")?;
    Ok(())
}

const LEFT: [&str; 2] = ["left/noarch/0.temporary", "left/noarch/shards/7.temporary"];

const HELD: &str = "left/noarch/shards/0.temporary";

// A folder with temporary files that runs left, and one that is there to be held.
fn leave(rt: &HostRuntime) -> Result<(), Fail> {
    fs::create_dir_all(rt, "left/noarch/shards")?;
    for path in LEFT {
        fs::write(rt, path, b"a part")?;
    }
    fs::write(rt, HELD, b"a part")?;
    Ok(())
}

// What a killed run left is removed, and what a living one holds is not.
#[test]
fn temporary_files_that_were_left_are_removed(rt: HostRuntime) -> Result<(), Fail> {
    let mut store = FolderStore::new(rt);
    leave(&rt)?;
    let living = File::open(&rt, HELD)?;
    living.try_lock()?;
    assert!(rt;
        takes(
            rt.alloc(),
            &mut store,
            "left/noarch/repodata_shards.msgpack",
            "new"
        )
    );
    for path in LEFT {
        assert!(rt; !fs::exists(&rt, path)?, "{path}");
    }
    assert!(rt; is_file_of(&rt, HELD, b"a part")?);
    fs::remove_dir_all(&rt, "left")?;
    Ok(())
}
