//! Indexes worked out by hand: what they say, what is skipped in them, and each fault with its place.

ghost use Rattle.std.specs.Prelude.{◌≡◌, IfOk};
ghost use Rattle.conda_name.specs.Name.{IsName};

use crate::index::Index;
use crate::refusal::IndexRefusal;
use crate::writing::{IndexRow, write_index};
use conda_name::Name;
use digest_gate::Digest;
use mp_codec::FaultKind::{
    self, Missing, NotText, Repeated, Reserved, Short, Trailing, Version, Wrong,
};
use std::alloc::Global;
use std::test::Fail;

// An index, the kind of its first fault, and the place.
const FAULTS: [(&[u8], FaultKind, u64); 68] = [
    // The bytes end within the head, a key, a value, or in front of a pair.
    (b"", Short, 0),
    (b"\x81", Short, 1),
    (b"\x81\xa6shards", Short, 8),
    (b"\x81\xa6shards\xde\x00", Short, 10),
    (b"\x81\xa6shards\x81\xa2a", Short, 11),
    (b"\x81\xa6shards\x81\xa1a", Short, 11),
    (b"\x81\xa6shards\x81\xa1a\xc4", Short, 12),
    // A digest of the right length that is cut.
    (b"\x81\xa6shards\x81\xa1a\xc4\x20\x00", Short, 14),
    (b"\x81\xa6shards\x81\xa1a\xd9\x40zz", Short, 15),
    (b"\x82\xa7version\xcd\x00", Short, 11),
    (b"\x82\xa4info\x81\xa8base", Short, 12),
    (b"\x82\xa4info\x81\xaacreated_at\xcb\x00", Short, 20),
    // The most that can be claimed, in each inner map: the place is where the bytes end.
    (b"\xdf\xff\xff\xff\xff", Short, 5),
    (b"\x81\xa6shards\xdf\xff\xff\xff\xff", Short, 13),
    (b"\x81\xa4info\xdf\xff\xff\xff\xff", Short, 11),
    (b"\x81\xa6shards\x81\xa1a\xc6\xff\xff\xff\xff", Wrong, 11),
    // The byte that is never used.
    (b"\xc1", Reserved, 0),
    (b"\x81\xa6shards\xc1", Reserved, 8),
    (b"\x81\xa6shards\x81\xc1", Reserved, 9),
    (b"\x81\xa6shards\x81\xa1a\xc1", Reserved, 11),
    (b"\x82\xa7version\xc1", Reserved, 9),
    (b"\x82\xa4info\x81\xa6subdir\xc1", Reserved, 14),
    (b"\x81\xa1x\x91\xc1", Reserved, 4),
    // A name that is no UTF-8.
    (b"\x81\xa6shards\x81\xa1\xff\xc0", NotText, 9),
    // Values of other kinds: the index, the version, the info, the map of names, a name.
    (b"\x90", Wrong, 0),
    (b"\xc0", Wrong, 0),
    (b"\x82\xa7version\xa11", Wrong, 9),
    (b"\x82\xa7version\xff", Wrong, 9),
    (
        b"\x82\xa7version\xcb\x3f\xf0\x00\x00\x00\x00\x00\x00",
        Wrong,
        9,
    ),
    (b"\x82\xa7version\xc0", Wrong, 9),
    (b"\x82\xa4info\x90", Wrong, 6),
    (b"\x82\xa4info\xc0", Wrong, 6),
    (b"\x81\xa6shards\x90", Wrong, 8),
    (b"\x81\xa6shards\x81\x01\xc0", Wrong, 9),
    (b"\x81\xa6shards\x81\xc4\x01a\xc0", Wrong, 9),
    // A digest of another kind or length, also where it is cut.
    (b"\x81\xa6shards\x81\xa1a\xc0", Wrong, 11),
    (b"\x81\xa6shards\x81\xa1a\x07", Wrong, 11),
    (b"\x81\xa6shards\x81\xa1a\x90", Wrong, 11),
    (b"\x81\xa6shards\x81\xa1a\x81", Wrong, 11),
    (b"\x81\xa6shards\x81\xa1a\xc4\x1f\x00", Wrong, 11),
    (b"\x81\xa6shards\x81\xa1a\xc4\x21", Wrong, 11),
    (b"\x81\xa6shards\x81\xa1a\xd9\x3f", Wrong, 11),
    (b"\x81\xa6shards\x81\xa1a\xd9\x20", Wrong, 11),
    // A str of 64 bytes that are no hexadecimal digits, or no UTF-8.
    (
        b"\x81\xa6shards\x81\xa1a\xd9\x40\
        0123456789abcdef0123456789abcdef0123456789abcdef0123456789abcdeg",
        Wrong,
        11,
    ),
    (
        b"\x81\xa6shards\x81\xa1a\xd9\x40\
        0123456789abcdef0123456789abcdef0123456789abcdef0123456789abcde\xff",
        Wrong,
        11,
    ),
    // No shards, also where bytes follow, and where the key is a bin.
    (b"\x80", Missing, 1),
    (b"\x80\x00", Missing, 1),
    (b"\x81\xa7version\x01", Missing, 10),
    (b"\x82\xa7version\x01\xa4info\x80", Missing, 16),
    (b"\x81\xc4\x06shards\x80", Missing, 10),
    // A known key twice, also behind a value that counts as missing.
    (b"\x82\xa6shards\x80\xa6shards\x80", Repeated, 9),
    (b"\x83\xa7version\x01\xa7version", Repeated, 10),
    (b"\x83\xa4info\x80\xa4info", Repeated, 7),
    (
        b"\x82\xa4info\x82\xa8base_url\xa1x\xa8base_url",
        Repeated,
        18,
    ),
    (
        b"\x82\xa4info\x82\xa8base_url\x01\xa8base_url",
        Repeated,
        17,
    ),
    (
        b"\x82\xa4info\x82\xafshards_base_url\xc0\xafshards_base_url",
        Repeated,
        24,
    ),
    (b"\x82\xa4info\x82\xa6subdir\xc0\xa6subdir", Repeated, 15),
    (
        b"\x82\xa4info\x82\xaacreated_at\xc0\xaacreated_at",
        Repeated,
        19,
    ),
    // A name twice, also where it is spelled otherwise.
    (
        b"\x81\xa6shards\x82\xa1a\xc4\x20abcdefghijklmnopqrstuvwxyz012345\xa1a",
        Repeated,
        45,
    ),
    (
        b"\x81\xa6shards\x82\xa1a\xc4\x20abcdefghijklmnopqrstuvwxyz012345\xd9\x01a",
        Repeated,
        45,
    ),
    // Bytes behind the index.
    (b"\x81\xa6shards\x80\x80", Trailing, 9),
    (b"\x81\xa6shards\x80\xc1", Trailing, 9),
    // Versions other than 1, also where something is wrong behind them.
    (b"\x82\xa7version\x02\xa6shards\x80", Version, 9),
    (b"\x82\xa7version\x00\xa6shards\x80", Version, 9),
    (b"\x82\xa7version\xcd\x00\x02\xa6shards\x80", Version, 9),
    (
        b"\x82\xa7version\xcf\xff\xff\xff\xff\xff\xff\xff\xff",
        Version,
        9,
    ),
    (b"\x82\xa7version\xd0\x02\xc1", Version, 9),
    (b"\x82\xa7version\x02\xc1", Version, 9),
];

// An index of two names in another order than that of their bytes, with a digest as bytes and one as
// hexadecimal digits of both cases, an info of other kinds, and keys that aren't known.
const TWO_NAMES: &[u8] = b"\x85\xa1x\x91\xa1y\xa7version\xcc\x01\xa4info\x85\xa8base_url\x01\
    \xafshards_base_url\xa3s/x\xa6subdir\xa1\xff\xaacreated_at\x91\xc0\xa1z\xc2\xa6shards\x82\
    \xa1b\xc4\x20abcdefghijklmnopqrstuvwxyz012345\
    \xa1a\xd9\x40BA7816BF8F01CFeA414140de5dae2223b00361a396177a9cb410ff61f20015ad\x01\x02";

// The kind and the place of the fault that is answered for some bytes.
fn fault_of(alloc: Global, bytes: &[u8]) -> Option<(FaultKind, u64)> {
    match Index::read(alloc, bytes) {
        Err(IndexRefusal::Fault(fault)) => Some((fault.kind, fault.at)),
        Err(IndexRefusal::Memory) | Ok(_) => None,
    }
}

// Whether bytes are an index without names, with what counts where a part is missing.
fn has_defaults(alloc: Global, bytes: &[u8]) -> bool {
    match Index::read(alloc, bytes) {
        Ok(index) => {
            index.len() == 0
                && index.base_url() == "./"
                && index.shards_base_url() == "./shards/"
                && index.subdir() == ""
                && index.lookup("").is_none()
        }
        Err(_) => false,
    }
}

#[test]
fn missing_parts_have_defaults(rt: HostRuntime) {
    assert!(rt; has_defaults(rt.alloc(), b"\x81\xa6shards\x80"));
}

// Whether `TWO_NAMES` says what it should, names apart.
fn has_two_names(alloc: Global) -> bool {
    match Index::read(alloc, TWO_NAMES) {
        Ok(index) => {
            index.len() == 2
                && index.base_url() == "./"
                && index.shards_base_url() == "s/x"
                && index.subdir() == ""
        }
        Err(_) => false,
    }
}

// The digest that an index lists for a name.
fn listed(alloc: Global, bytes: &[u8], name: &str) -> Option<Digest> {
    match Index::read(alloc, bytes) {
        Ok(index) => index.lookup(name),
        Err(_) => None,
    }
}

#[test]
fn names_are_found_by_their_bytes(rt: HostRuntime) {
    assert!(rt; has_two_names(rt.alloc()));
    assert!(rt; listed(rt.alloc(), TWO_NAMES, "a") == Some(Digest::of(b"abc")));
    let digest = Digest(*b"abcdefghijklmnopqrstuvwxyz012345");
    assert!(rt; listed(rt.alloc(), TWO_NAMES, "b") == Some(digest));
    for name in ["", "A", "aa", "c"] {
        assert!(rt; listed(rt.alloc(), TWO_NAMES, name).is_none(), "{name}");
    }
}

#[test]
fn answers_each_fault_with_its_place(rt: HostRuntime) {
    for (bytes, kind, at) in FAULTS {
        assert!(rt;
            fault_of(rt.alloc(), bytes) == Some((kind, at)),
            "{bytes:?}"
        );
    }
}

// The index of no names of the subdir `noarch`, up to the number of names, 76 bytes with it.
const NOARCH: &[u8] = b"\x83\xa7version\x01\xa4info\x83\xa8base_url\xa2./\
    \xafshards_base_url\xa9./shards/\xa6subdir\xa6noarch\xa6shards";

// The row of a name whose digest is that of some bytes.
fn row(alloc: Global, name: &str, bytes: &[u8]) -> Result<IndexRow, Fail>
    requires { IsName name.now }
    ensures { IfOk result (λ row. row.name ≡ name.now) }
{
    match Name::read(alloc, name) {
        Ok(name) => Ok(IndexRow {
            name,
            digest: Digest::of(bytes),
        }),
        Err(_) => Err("it is a name".into()),
    }
}

// The index of no names.
fn no_names(alloc: Global) -> Result<Vec<u8>, Fail> {
    let mut out = Vec::new(alloc);
    write_index("noarch", &[], &mut out)?;
    Ok(out)
}

#[test]
fn an_index_without_names_has_76_bytes(rt: HostRuntime) -> Result<(), Fail> {
    let out = no_names(rt.alloc())?;
    assert!(rt; out.len() == 76);
    assert!(rt; out.as_slice().strip_prefix(NOARCH) == Some(b"\x80".as_slice()));
    Ok(())
}

// The index of two names.
fn two_names(alloc: Global) -> Result<Vec<u8>, Fail> {
    let mut rows = Vec::new(alloc);
    rows.push(row(alloc, "a", b"abc")?)?;
    rows.push(row(alloc, "b", b"")?)?;
    let mut out = Vec::new(alloc);
    write_index("noarch", &rows, &mut out)?;
    Ok(out)
}

// What it should be.
fn spelled(alloc: Global) -> Result<Vec<u8>, Fail> {
    let mut bytes = NOARCH.to_vec(alloc)?;
    bytes.extend_from_slice(b"\x82\xa1a\xc4\x20")?;
    bytes.extend_from_slice(&Digest::of(b"abc").0)?;
    bytes.extend_from_slice(b"\xa1b\xc4\x20")?;
    bytes.extend_from_slice(&Digest::of(b"").0)?;
    Ok(bytes)
}

#[test]
fn what_is_written_is_read(rt: HostRuntime) -> Result<(), Fail> {
    let out = two_names(rt.alloc())?;
    assert!(rt; out.as_slice() == spelled(rt.alloc())?.as_slice());
    assert!(rt; listed(rt.alloc(), &out, "a") == Some(Digest::of(b"abc")));
    assert!(rt; listed(rt.alloc(), &out, "b") == Some(Digest::of(b"")));
    Ok(())
}
