//! Records worked out by hand: every key, every kind of value behind a key, and each fault with
//! its place.

use crate::record::PackageRecord;
use crate::refusal::RecordRefusal;
use crate::spans::{Field, RecordSpans};
use crate::view::RecordView;
use mp_codec::FaultKind::{self, Missing, NotText, Repeated, Reserved, Short, Wrong};
use mp_codec::{Cursor, FormatFault};
use std::alloc::Global;
use std::test::Fail;

const MD5: [u8; 16] = [0xab; 16];

const SHA256: [u8; 32] = [0xcd; 32];

// All keys, an unknown one among them, and behind the record the number 7.
const ALL_KEYS: &[u8] = b"\x8e\
    \xa7version\xa61.26.0\
    \xa4name\xa5numpy\
    \xa5build\xa6py312_\
    \xacbuild_number\xcd\x01\x02\
    \xa7depends\x92\xacpython >=3.9\xa4blas\
    \xaaconstrains\x91\xa5a <\xc3\xa9\
    \xa6subdir\xa8linux-64\
    \xa8unknown!\x81\x01\xc7\x01\x05\xff\
    \xa3md5\xc4\x10\xab\xab\xab\xab\xab\xab\xab\xab\xab\xab\xab\xab\xab\xab\xab\xab\
    \xa6sha256\xd9\x40cdCDcdcdcdcdcdcdcdcdcdcdcdcdcdcdcdcdcdcdcdcdcdcdcdcdcdcdcdcdcdcd\
    \xa4size\xce\x00\x01\x00\x00\
    \xa9timestamp\xcf\x00\x00\x01\x8a\xbc\xde\xf0\x12\
    \xa7license\xacBSD-3-Clause\
    \xa6noarch\xa6python\
    \x07";

// The shortest record: its three required keys.
const REQUIRED: &[u8] = b"\x83\xa4name\xa1a\xa7version\xa11\xa5build\xa10";

// Bytes behind a nil, so that places are counted from the first byte, and the fault in the record
// that stands behind it.
const FAULTS: [(&[u8], FaultKind, u64); 34] = [
    // The bytes end within the head, a key, a value, or in front of a pair.
    (b"\xc0", Short, 1),
    (b"\xc0\xde\x00", Short, 3),
    (b"\xc0\xdf\xff\xff\xff\xff", Short, 6),
    (b"\xc0\x83\xa4nam", Short, 6),
    (b"\xc0\x83\xa4name\xa9a", Short, 9),
    (b"\xc0\x83\xa4name\xa1a", Short, 9),
    (b"\xc0\x81\xa4size\xcf\x00", Short, 9),
    (b"\xc0\x81\xa7depends\x92\xa1a", Short, 13),
    // More elements of a list are claimed than there are bytes.
    (b"\xc0\x81\xa7depends\xdd\xff\xff\xff\xff", Short, 15),
    (b"\xc0\x81\xaaconstrains\xdd\xff\xff\xff\xff", Short, 18),
    (b"\xc0\x81\xa3md5\xc4\x10\x00", Short, 9),
    (b"\xc0\x81\xa6sha256\xd9\x40c", Short, 12),
    // The byte that is never used, as the record, a key, and within values of every depth.
    (b"\xc0\xc1", Reserved, 1),
    (b"\xc0\x81\xc1\x00", Reserved, 2),
    (b"\xc0\x81\xa4name\xc1", Reserved, 7),
    (b"\xc0\x81\xa7version\xc1", Reserved, 10),
    (b"\xc0\x81\xa5build\xc1", Reserved, 8),
    (b"\xc0\x81\xa3md5\xc1", Reserved, 6),
    (b"\xc0\x81\xa4size\xc1", Reserved, 7),
    (b"\xc0\x81\xa7depends\x92\x07\xc1", Reserved, 12),
    (b"\xc0\x81\x01\x81\x91\xc1\x00", Reserved, 5),
    // A record that is no map, and required keys whose values are no strs.
    (b"\xc0\x93\xa1a\xa11\xa10", Wrong, 1),
    (b"\xc0\x81\xa4name\x01", Wrong, 7),
    (
        b"\xc0\x81\xa7version\xcb\x3f\xf0\x00\x00\x00\x00\x00\x00",
        Wrong,
        10,
    ),
    (b"\xc0\x81\xa5build\xc4\x010", Wrong, 8),
    // Required keys whose values are no UTF-8.
    (b"\xc0\x81\xa4name\xa1\xff", NotText, 7),
    (b"\xc0\x81\xa7version\xa1\xff", NotText, 10),
    (b"\xc0\x81\xa5build\xd9\x02\xc3\x28", NotText, 8),
    // A required key is missing: the place is behind the map.
    (b"\xc0\x80", Missing, 2),
    (
        b"\xc0\x82\xa4name\xa1a\xa7version\xa11\xa5build\xa10",
        Missing,
        19,
    ),
    (b"\xc0\x81\xc4\x04name\xa1a", Missing, 10),
    // A known key stands twice, whatever its values are.
    (b"\xc0\x84\xa4name\xa1a\xa4name\xa1a", Repeated, 9),
    (b"\xc0\x83\xa4size\x07\xd9\x04size\xc1", Repeated, 8),
    (b"\xc0\x82\xa7license\xc0\xa7license\xa1x", Repeated, 11),
];

// Records, and what msgpack of Python writes for their fields, in the order of the keys.
const WRITTEN: [(&[u8], &[u8]); 3] = [
    (
        ALL_KEYS,
        b"\x8d\xa4name\xa5numpy\
        \xa7version\xa61.26.0\
        \xa5build\xa6py312_\
        \xacbuild_number\xcd\x01\x02\
        \xa7depends\x92\xacpython >=3.9\xa4blas\
        \xaaconstrains\x91\xa5a <\xc3\xa9\
        \xa6subdir\xa8linux-64\
        \xa3md5\xc4\x10\xab\xab\xab\xab\xab\xab\xab\xab\xab\xab\xab\xab\xab\xab\xab\xab\
        \xa6sha256\xc4\x20\xcd\xcd\xcd\xcd\xcd\xcd\xcd\xcd\xcd\xcd\xcd\xcd\xcd\xcd\xcd\xcd\
        \xcd\xcd\xcd\xcd\xcd\xcd\xcd\xcd\xcd\xcd\xcd\xcd\xcd\xcd\xcd\xcd\
        \xa4size\xce\x00\x01\x00\x00\
        \xa9timestamp\xcf\x00\x00\x01\x8a\xbc\xde\xf0\x12\
        \xa7license\xacBSD-3-Clause\
        \xa6noarch\xa6python",
    ),
    (
        REQUIRED,
        b"\x85\xa4name\xa1a\xa7version\xa11\xa5build\xa10\xacbuild_number\x00\xa7depends\x90",
    ),
    // Optional keys whose values are of another kind are left out, and so is an empty list.
    (
        b"\x86\xa3md5\xa1x\xaaconstrains\x90\xa6noarch\xa0\xa5build\xa0\xa4name\xa0\xa7version\xa0",
        b"\x86\xa4name\xa0\xa7version\xa0\xa5build\xa0\xacbuild_number\x00\xa7depends\x90\xa6noarch\xa0",
    ),
];

// Each optional key, as it is spelled.
const OPTIONAL: [&[u8]; 10] = [
    b"\xacbuild_number",
    b"\xa7depends",
    b"\xaaconstrains",
    b"\xa6subdir",
    b"\xa3md5",
    b"\xa6sha256",
    b"\xa4size",
    b"\xa9timestamp",
    b"\xa7license",
    b"\xa6noarch",
];

// Values of each kind, none of which an optional key may have.
const OTHER_KINDS: [&[u8]; 13] = [
    b"\xc0",
    b"\xc2",
    b"\xff",
    b"\xd3\x80\x00\x00\x00\x00\x00\x00\x00",
    b"\xca\x3f\x80\x00\x00",
    b"\xa2\xc3\x28",
    b"\xc4\x0f\xab\xab\xab\xab\xab\xab\xab\xab\xab\xab\xab\xab\xab\xab\xab",
    b"\xc4\x11\xab\xab\xab\xab\xab\xab\xab\xab\xab\xab\xab\xab\xab\xab\xab\xab\xab",
    b"\x91\x07",
    b"\x92\xa1a\xa1\xff",
    b"\x81\xa1a\xa1b",
    b"\xd4\x05\x00",
    b"\xc7\x02\x05\xff\xff",
];

// Keys that are no strs, or not those of a record.
const NO_STRS: [&[u8]; 4] = [
    b"\xc4\x04size",
    b"\x91\xa4size",
    b"\xa5size\x00",
    b"\xa4siz\xff",
];

// A digest, and its spellings by bytes and by digits.
const DIGEST: [u8; 16] = [
    0x01, 0x23, 0x45, 0x67, 0x89, 0xab, 0xcd, 0xef, 0, 0, 0, 0, 0, 0, 0, 0x0f,
];

const DIGESTS: [&[u8]; 3] = [
    b"\xc5\x00\x10\x01\x23\x45\x67\x89\xab\xcd\xef\x00\x00\x00\x00\x00\x00\x00\x0f",
    b"\xd9\x200123456789abcdef000000000000000f",
    b"\xdb\x00\x00\x00\x200123456789ABCDef000000000000000F",
];

// Texts that spell no digest of 16 bytes.
const NO_DIGESTS: [&[u8]; 4] = [
    b"\xd9\x20g123456789abcdef0000000000000000",
    b"\xbf0123456789abcdef000000000000000",
    b"\xd9\x210123456789abcdef00000000000000000",
    b"\xa1x",
];

// Where the texts of the record with all keys stand, and those that it has not.
const PLACES: [(Field, Option<(usize, usize)>); 11] = [
    (Field::Name, Some((22, 27))),
    (Field::Version, Some((10, 16))),
    (Field::Build, Some((34, 40))),
    (Field::Subdir, Some((109, 117))),
    (Field::License, Some((265, 277))),
    (Field::Noarch, Some((285, 291))),
    (Field::Depend(0), Some((66, 78))),
    (Field::Depend(1), Some((79, 83))),
    (Field::Depend(2), None),
    (Field::Constrain(0), Some((96, 101))),
    (Field::Constrain(1), None),
];

// Where texts stand that are empty, and those that are not there, in the last record of `WRITTEN`.
const EMPTY_PLACES: [(Field, Option<(usize, usize)>); 8] = [
    (Field::Name, Some((40, 40))),
    (Field::Version, Some((49, 49))),
    (Field::Build, Some((34, 34))),
    (Field::Subdir, None),
    (Field::License, None),
    (Field::Noarch, Some((27, 27))),
    (Field::Depend(0), None),
    (Field::Constrain(0), None),
];

// What is wrong with the record that stands at a cursor, and where.
fn fault_at(alloc: Global, cursor: &mut Cursor<'_>) -> Option<(FaultKind, u64)> {
    match PackageRecord::read(alloc, cursor) {
        Err(RecordRefusal::Fault(fault)) => Some((fault.kind, fault.at)),
        Ok(_) | Err(RecordRefusal::Memory) => None,
    }
}

// The record of the required keys, and behind them these bytes: one key with its value.
fn with_pair(alloc: Global, pair: &[&[u8]]) -> Result<Vec<u8>, Fail> {
    let mut bytes = REQUIRED.to_vec(alloc)?;
    if let Some(head) = bytes.first_mut() {
        *head = 0x84;
    }
    for part in pair {
        bytes.extend_from_slice(part)?;
    }
    Ok(bytes)
}

// Whether none of the optional keys is there.
fn has_required_alone(view: RecordView<'_>) -> bool {
    view.name() == "a"
        && view.version() == "1"
        && view.build() == "0"
        && view.build_number() == 0
        && view.depends_len() == 0
        && view.constrains_len() == 0
        && view.subdir().is_none()
        && view.md5().is_none()
        && view.sha256().is_none()
        && view.size().is_none()
        && view.timestamp().is_none()
        && view.license().is_none()
        && view.noarch().is_none()
}

// Whether the texts are those of the record with all keys.
fn has_all_texts(view: RecordView<'_>) -> bool {
    view.name() == "numpy"
        && view.version() == "1.26.0"
        && view.build() == "py312_"
        && view.subdir() == Some("linux-64")
        && view.license() == Some("BSD-3-Clause")
        && view.noarch() == Some("python")
}

// Whether the lists are those of the record with all keys.
fn has_all_lists(view: RecordView<'_>) -> bool {
    view.depends_len() == 2
        && view.depend(0) == Some("python >=3.9")
        && view.depend(1) == Some("blas")
        && view.depend(2).is_none()
        && view.constrains_len() == 1
        && view.constrain(0) == Some("a <\u{e9}")
        && view.constrain(1).is_none()
}

// Whether the numbers and digests are those of the record with all keys.
fn has_all_numbers(view: RecordView<'_>) -> bool {
    view.build_number() == 258
        && view.md5() == Some(MD5)
        && view.sha256() == Some(SHA256)
        && view.size() == Some(65_536)
        && view.timestamp() == Some(0x0000_018a_bcde_f012)
}

// Whether bytes are the record with all keys, and behind it the number 7.
fn is_all_keys(alloc: Global, bytes: &[u8]) -> bool {
    let mut cursor = Cursor::new(bytes);
    match PackageRecord::read(alloc, &mut cursor) {
        Ok(record) => {
            has_all_texts(record.view())
                && has_all_lists(record.view())
                && has_all_numbers(record.view())
                && cursor.number_or_skip() == Ok(Some(7))
                && cursor.is_end()
        }
        Err(_) => false,
    }
}

#[test]
fn reads_all_keys(rt: HostRuntime) {
    assert!(rt; is_all_keys(rt.alloc(), ALL_KEYS));
}

// Whether bytes are a record with the required keys alone, and nothing behind it.
fn is_required_alone(alloc: Global, bytes: &[u8]) -> bool {
    let mut cursor = Cursor::new(bytes);
    match PackageRecord::read(alloc, &mut cursor) {
        Ok(record) => cursor.is_end() && has_required_alone(record.view()),
        Err(_) => false,
    }
}

#[test]
fn reads_the_required_keys_alone(rt: HostRuntime) {
    assert!(rt; is_required_alone(rt.alloc(), REQUIRED));
}

// Whether the texts of the record that some bytes begin with stand at these places.
fn stand_at(alloc: Global, bytes: &[u8], places: &[(Field, Option<(usize, usize)>)]) -> bool {
    match RecordSpans::read(alloc, &mut Cursor::new(bytes)) {
        Ok(record) => are_at(&record, places),
        Err(_) => false,
    }
}

fn are_at(record: &RecordSpans, places: &[(Field, Option<(usize, usize)>)]) -> bool {
    for (field, place) in places {
        if record.span(*field) != *place {
            return false;
        }
    }
    true
}

#[test]
fn a_span_is_where_its_text_stands(rt: HostRuntime) {
    assert!(rt; stand_at(rt.alloc(), ALL_KEYS, &PLACES));
    let (bytes, _) = WRITTEN[2];
    assert!(rt; stand_at(rt.alloc(), bytes, &EMPTY_PLACES));
}

// Whether the record of the required keys is shown from its spans.
fn is_shown(alloc: Global) -> bool {
    match RecordSpans::read(alloc, &mut Cursor::new(REQUIRED)) {
        Ok(spans) => has_required_alone(spans.view(REQUIRED)),
        Err(_) => false,
    }
}

#[test]
fn a_record_is_shown_from_its_spans(rt: HostRuntime) {
    assert!(rt; is_shown(rt.alloc()));
}

// What a record is written as, behind a nil.
fn put(alloc: Global, record: &PackageRecord) -> Result<Vec<u8>, Fail> {
    let mut out = b"\xc0".to_vec(alloc)?;
    if !record.is_writable() {
        return Err("a record that was read can't be written".into());
    }
    record.write(&mut out)?;
    Ok(out)
}

// What a copy of a record is written as, behind a nil.
fn put_copy(alloc: Global, view: RecordView<'_>) -> Result<Vec<u8>, Fail> {
    let record = PackageRecord::copy(alloc, view)?;
    put(alloc, &record)
}

// What a copy of the record that some bytes begin with is written as, behind a nil.
fn copied(alloc: Global, bytes: &[u8]) -> Result<Vec<u8>, Fail> {
    match RecordSpans::read(alloc, &mut Cursor::new(bytes)) {
        Ok(spans) => put_copy(alloc, spans.view(bytes)),
        Err(refusal) => Err(refusal.into()),
    }
}

#[test]
fn a_record_is_copied_from_its_spans(rt: HostRuntime) -> Result<(), Fail> {
    for (bytes, expected) in WRITTEN {
        let out = copied(rt.alloc(), bytes)?;
        assert_eq!(rt; out.as_slice().strip_prefix(b"\xc0"), Some(expected));
    }
    Ok(())
}

#[test]
fn a_value_of_another_kind_counts_as_missing(rt: HostRuntime) -> Result<(), Fail> {
    for key in OPTIONAL {
        for value in OTHER_KINDS {
            let bytes = with_pair(rt.alloc(), &[key, value])?;
            assert!(rt; is_required_alone(rt.alloc(), &bytes), "{key:?} {value:?}");
        }
    }
    Ok(())
}

#[test]
fn a_key_that_is_no_str_is_not_known(rt: HostRuntime) -> Result<(), Fail> {
    for key in NO_STRS {
        let bytes = with_pair(rt.alloc(), &[key, b"\x07"])?;
        assert!(rt; is_required_alone(rt.alloc(), &bytes), "{key:?}");
    }
    Ok(())
}

// The md5 of the record that some bytes are.
fn md5_in(alloc: Global, bytes: &[u8]) -> Result<Option<[u8; 16]>, Fail> {
    match PackageRecord::read(alloc, &mut Cursor::new(bytes)) {
        Ok(record) => Ok(record.view().md5()),
        Err(refusal) => Err(refusal.into()),
    }
}

// The md5 of a record in which this value stands behind that key.
fn md5_of(alloc: Global, value: &[u8]) -> Result<Option<[u8; 16]>, Fail> {
    md5_in(alloc, &with_pair(alloc, &[b"\xa3md5", value])?)
}

#[test]
fn a_digest_is_read_from_bytes_or_digits(rt: HostRuntime) -> Result<(), Fail> {
    for value in DIGESTS {
        assert!(rt; md5_of(rt.alloc(), value)? == Some(DIGEST), "{value:?}");
    }
    for value in NO_DIGESTS {
        assert!(rt; md5_of(rt.alloc(), value)?.is_none(), "{value:?}");
    }
    Ok(())
}

// What the record that some bytes begin with is written as, behind a nil.
fn written(alloc: Global, bytes: &[u8]) -> Result<Vec<u8>, Fail> {
    match PackageRecord::read(alloc, &mut Cursor::new(bytes)) {
        Ok(record) => put(alloc, &record),
        Err(refusal) => Err(refusal.into()),
    }
}

// Whether these bytes are one record, with nothing behind it.
fn is_record(alloc: Global, bytes: &[u8]) -> bool {
    let mut cursor = Cursor::new(bytes);
    PackageRecord::read(alloc, &mut cursor).is_ok() && cursor.is_end()
}

#[test]
fn writes_what_another_program_writes(rt: HostRuntime) -> Result<(), Fail> {
    for (bytes, expected) in WRITTEN {
        let out = written(rt.alloc(), bytes)?;
        assert_eq!(rt; out.as_slice().strip_prefix(b"\xc0"), Some(expected));
        let again = written(rt.alloc(), expected)?;
        assert_eq!(rt; again.as_slice().strip_prefix(b"\xc0"), Some(expected));
        assert!(rt; is_record(rt.alloc(), expected));
    }
    Ok(())
}

#[test]
fn answers_each_fault_with_its_place(rt: HostRuntime) {
    for (bytes, kind, at) in FAULTS {
        let mut cursor = Cursor::new(bytes);
        assert!(rt; cursor.skip().is_ok(), "{bytes:?}");
        let fault = fault_at(rt.alloc(), &mut cursor);
        assert!(rt; fault == Some((kind, at)), "{bytes:?}");
        assert!(rt; cursor.at() == 1, "{bytes:?}");
    }
}

#[test]
fn a_record_that_breaks_off_is_short(rt: HostRuntime) {
    for end in 0..REQUIRED.len() {
        let bytes = REQUIRED.get(..end).unwrap_or_default();
        let fault = fault_at(rt.alloc(), &mut Cursor::new(bytes));
        assert!(rt; fault == Some((Short, end as u64)));
    }
}

// A key twice with a nil behind it, in a map.
fn twice(alloc: Global, key: &[u8]) -> Result<Vec<u8>, Fail> {
    let mut bytes = b"\x82".to_vec(alloc)?;
    for _ in 0..2 {
        bytes.extend_from_slice(key)?;
        bytes.push(0xc0)?;
    }
    Ok(bytes)
}

#[test]
fn each_key_that_stands_twice_is_a_fault(rt: HostRuntime) -> Result<(), Fail> {
    for key in OPTIONAL {
        let bytes = twice(rt.alloc(), key)?;
        let fault = fault_at(rt.alloc(), &mut Cursor::new(bytes.as_slice()));
        assert!(rt; fault == Some((Repeated, key.len() as u64 + 2)), "{key:?}");
    }
    Ok(())
}

#[test]
fn a_digest_of_another_kind_may_stand_once(rt: HostRuntime) -> Result<(), Fail> {
    let once = b"\x84\xa4name\xa1a\xa7version\xa11\xa5build\xa10\xa3md5\xa1x";
    assert!(rt; md5_in(rt.alloc(), once)?.is_none());
    let twice = b"\x85\xa4name\xa1a\xa7version\xa11\xa5build\xa10\xa3md5\xa1x\xa3md5\xa1x";
    let fault = fault_at(rt.alloc(), &mut Cursor::new(twice));
    assert!(rt; fault == Some((Repeated, 32)));
    Ok(())
}

#[test]
fn a_refusal_names_its_fault(rt: HostRuntime) -> Result<(), Fail> {
    let refusal = RecordRefusal::Fault(FormatFault { at: 7, kind: Wrong });
    let text = format!(in rt.alloc(); "{refusal:?}")?;
    assert_eq!(rt; text.as_str(), "Fault(FormatFault { at: 7, kind: Wrong })");
    Ok(())
}
