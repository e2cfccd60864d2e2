//! Records out of JSON values that borrow their text.
use crate::json_rows::{Numbers, RECORDS, REFUSED, WHOLE, is_whole, numbers_of};
use crate::{PackageRecord, RecordView, is_data};
use json::{Scratch, Value};
use std::alloc::Global;
use std::test::Fail;

fn is_data_in(alloc: Global, text: &str) -> Result<bool, Fail> {
    let mut scratch = Scratch::new(alloc);
    let value = Value::parse(alloc, text, &mut scratch)?;
    Ok(is_data(&value))
}

// Values that are data, and values with a number out of range.
const NUMBERS: [(&str, bool); 12] = [
    ("null", true),
    ("-0", true),
    ("1.5", true),
    ("18446744073709551616", true),
    ("1e308", true),
    ("1e309", false),
    ("-1e309", false),
    (r#""1e309""#, true),
    ("[1,[2,-3e-999]]", true),
    ("[1,[2,1e309],3]", false),
    (r#"{"a":1,"b":{"c":true}}"#, true),
    (r#"{"a":1,"b":{"c":[1e309]},"b":1}"#, false),
];

#[test]
fn data_has_no_number_out_of_range(rt: HostRuntime) -> Result<(), Fail> {
    for (text, expected) in NUMBERS {
        assert!(rt; is_data_in(rt.alloc(), text)? == expected, "{text}");
    }
    Ok(())
}

// The numbers of the record that a text is, if it is one.
fn numbers_in(alloc: Global, text: &str) -> Result<Option<Numbers>, Fail> {
    let mut scratch = Scratch::new(alloc);
    let value = Value::parse(alloc, text, &mut scratch)?;
    match PackageRecord::from_tree(alloc, &value)? {
        Some(record) => Ok(Some(numbers_of(record.view()))),
        None => Ok(None),
    }
}

// Values with a number out of range, which this reader looks for.
const OUT_OF_RANGE: [&str; 3] = [
    r#"{"name":"x","version":"1","build":"0","size":1e999}"#,
    r#"{"name":"x","version":"1","build":"0","other":{"deep":[true,-1e999]}}"#,
    r#"{"name":"x","version":"1","build":"0","size":1e999,"size":1}"#,
];

#[test]
fn a_value_that_says_no_record_gives_none(rt: HostRuntime) -> Result<(), Fail> {
    for text in REFUSED {
        assert!(rt; numbers_in(rt.alloc(), text)?.is_none(), "{text}");
    }
    for text in OUT_OF_RANGE {
        assert!(rt; numbers_in(rt.alloc(), text)?.is_none(), "{text}");
    }
    Ok(())
}

#[test]
fn an_optional_key_of_another_kind_counts_as_missing(rt: HostRuntime) -> Result<(), Fail> {
    for (text, numbers) in RECORDS {
        assert!(rt; numbers_in(rt.alloc(), text)? == Some(numbers), "{text}");
    }
    Ok(())
}

fn is_read_whole(alloc: Global) -> Result<bool, Fail> {
    let mut scratch = Scratch::new(alloc);
    let value = Value::parse(alloc, WHOLE, &mut scratch)?;
    match PackageRecord::from_tree(alloc, &value)? {
        Some(record) => Ok(is_whole(record.view())),
        None => Ok(false),
    }
}

#[test]
fn all_keys_are_read(rt: HostRuntime) -> Result<(), Fail> {
    assert!(rt; is_read_whole(rt.alloc())?);
    Ok(())
}

// A digest's text, and whether it is one of 16 bytes.
const DIGESTS: [(&str, bool); 5] = [
    (
        r#"{"name":"x","version":"1","build":"0","md5":"000102030405060708090A0B0C0D0E0F"}"#,
        true,
    ),
    (
        r#"{"name":"x","version":"1","build":"0","md5":"000102030405060708090a0b0c0d0e0"}"#,
        false,
    ),
    (
        r#"{"name":"x","version":"1","build":"0","md5":"000102030405060708090a0b0c0d0e0f00"}"#,
        false,
    ),
    (
        r#"{"name":"x","version":"1","build":"0","md5":"000102030405060708090a0b0c0d0e0g"}"#,
        false,
    ),
    (r#"{"name":"x","version":"1","build":"0","md5":16}"#, false),
];

// Whether the md5 of a record is there.
fn has_md5(alloc: Global, text: &str) -> Result<bool, Fail> {
    let mut scratch = Scratch::new(alloc);
    let value = Value::parse(alloc, text, &mut scratch)?;
    match PackageRecord::from_tree(alloc, &value)? {
        Some(record) => Ok(record.view().md5().is_some()),
        None => Err("no record".into()),
    }
}

#[test]
fn a_digest_has_two_digits_a_byte(rt: HostRuntime) -> Result<(), Fail> {
    for (text, is_there) in DIGESTS {
        assert!(rt; has_md5(rt.alloc(), text)? == is_there, "{text}");
    }
    Ok(())
}

// Records that both readers of JSON give.
const BOTH: [&str; 4] = [
    WHOLE,
    r#"{"name":"x","version":"1","build":"0"}"#,
    r#"{"depends":["a"],"depends":["b","c"],"size":1,"size":"2","name":1,"name":"x","version":"1","build":"0"}"#,
    r#"{"build":"\u0041","version":"1\n","name":"\u00e9","license":"\"","timestamp":1700000000000,"md5":"00"}"#,
];

fn texts_agree(view: RecordView<'_>, expected: RecordView<'_>) -> bool {
    view.name() == expected.name()
        && view.version() == expected.version()
        && view.build() == expected.build()
        && view.depend(0) == expected.depend(0)
        && view.license() == expected.license()
}

fn numbers_agree(view: RecordView<'_>, expected: RecordView<'_>) -> bool {
    numbers_of(view) == numbers_of(expected)
        && view.timestamp() == expected.timestamp()
        && view.md5() == expected.md5()
        && view.sha256() == expected.sha256()
}

// Whether the other reader of JSON gives the same record.
fn is_same_by_json(alloc: Global, text: &str, view: RecordView<'_>) -> Result<bool, Fail> {
    let value = serde_json::Value::from_str(alloc, text)?;
    match PackageRecord::from_json(alloc, &value) {
        Ok(other) => { Ok(texts_agree(view, other.view()) && numbers_agree(view, other.view())) }
        Err(_) => Ok(false),
    }
}

fn readers_agree(alloc: Global, text: &str) -> Result<bool, Fail> {
    let mut scratch = Scratch::new(alloc);
    let value = Value::parse(alloc, text, &mut scratch)?;
    match PackageRecord::from_tree(alloc, &value)? {
        Some(record) => is_same_by_json(alloc, text, record.view()),
        None => Ok(false),
    }
}

#[test]
fn both_readers_of_json_agree(rt: HostRuntime) -> Result<(), Fail> {
    for text in BOTH {
        assert!(rt; readers_agree(rt.alloc(), text)?, "{text}");
    }
    Ok(())
}
