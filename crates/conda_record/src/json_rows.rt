//! Rows for both readers of records out of JSON.
use crate::RecordView;

// Values that give no record.
pub(crate) const REFUSED: [&str; 10] = [
    "null",
    "[]",
    r#""name""#,
    "{}",
    r#"{"name":"x","version":"1"}"#,
    r#"{"name":"x","build":"0"}"#,
    r#"{"version":"1","build":"0"}"#,
    r#"{"name":"x","version":1,"build":"0"}"#,
    r#"{"name":"x","version":"1","build":null}"#,
    r#"{"name":"x","name":["x"],"version":"1","build":"0"}"#,
];

// The build number of a record, how many texts depends and constrains have, and its size.
pub(crate) type Numbers = (u64, usize, usize, Option<u64>);

// A record, and its numbers.
pub(crate) const RECORDS: [(&str, Numbers); 10] = [
    (r#"{"name":"x","version":"1","build":"0"}"#, (0, 0, 0, None)),
    (
        r#"{"name":"x","version":"1","build":"0","build_number":7,"depends":["a","b >=1"],"constrains":["c"],"size":18446744073709551615}"#,
        (7, 2, 1, Some(u64::MAX)),
    ),
    (
        r#"{"name":"x","version":"1","build":"0","build_number":-0,"depends":["a",1],"size":18446744073709551616}"#,
        (0, 0, 0, None),
    ),
    (
        r#"{"name":"x","version":"1","build":"0","build_number":"7","depends":"a","constrains":{},"size":1.5}"#,
        (0, 0, 0, None),
    ),
    (
        r#"{"name":"x","version":"1","build":"0","build_number":1e3,"depends":[],"constrains":[null],"size":-1}"#,
        (0, 0, 0, None),
    ),
    (
        r#"{"name":"x","version":"1","build":"0","build_number":null,"depends":null,"constrains":null,"subdir":null,"md5":null,"sha256":null,"size":null,"timestamp":null,"license":null,"noarch":null}"#,
        (0, 0, 0, None),
    ),
    (
        r#"{"name":"x","version":"1","build":"0","size":1,"size":2}"#,
        (0, 0, 0, Some(2)),
    ),
    (
        r#"{"depends":["a"],"depends":["b","c"],"size":1,"size":"2","name":1,"name":"x","version":"1","build":"0"}"#,
        (0, 2, 0, None),
    ),
    (
        r#"{"name":"x","version":"1","build":"0","other":{"size":3}}"#,
        (0, 0, 0, None),
    ),
    (
        r#"{"build":"0","build_number":10,"version":"1","name":"x","size":0,"subdir":7,"license":["BSD"]}"#,
        (10, 0, 0, Some(0)),
    ),
];

// All keys, with digests of either case.
pub(crate) const WHOLE: &str =
    r#"{"name":"X","version":"1.0","build":"py_0","build_number":1,"depends":["a","b >=1"],"constrains":["c"],"subdir":"noarch","md5":"000102030405060708090A0B0c0d0e0F","sha256":"000102030405060708090a0b0c0d0e0f101112131415161718191a1b1c1d1e1F","size":2,"timestamp":3,"license":"BSD","noarch":"python"}"#;

const MD5: [u8; 16] = [0, 1, 2, 3, 4, 5, 6, 7, 8, 9, 10, 11, 12, 13, 14, 15];

pub(crate) fn numbers_of(view: RecordView<'_>) -> Numbers {
    (
        view.build_number(),
        view.depends_len(),
        view.constrains_len(),
        view.size(),
    )
}

// Whether the texts are those of `WHOLE`.
fn has_whole_texts(view: RecordView<'_>) -> bool {
    view.name() == "X"
        && view.version() == "1.0"
        && view.build() == "py_0"
        && view.subdir() == Some("noarch")
        && view.license() == Some("BSD")
        && view.noarch() == Some("python")
}

// Whether all keys are those of `WHOLE`.
pub(crate) fn is_whole(view: RecordView<'_>) -> bool {
    has_whole_texts(view)
        && numbers_of(view) == (1, 2, 1, Some(2))
        && view.depend(1) == Some("b >=1")
        && view.constrain(0) == Some("c")
        && view.md5() == Some(MD5)
        && view.sha256().is_some()
        && view.timestamp() == Some(3)
}
