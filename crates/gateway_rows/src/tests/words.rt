//! Words that are those of `show`, specs among them, and words that are not.

use crate::tests::{ONE_FILE, ONE_LINE, ROOM, seen};
use crate::{bytes_of, show, sink, source, words_of};
use gateway_tool::{
    BAD_FILE, NOT_ANSWERED, OK, OUT_OF_MEMORY, READ_FAULT, STORE_FAULT, TOO_MUCH_INPUT, USAGE,
    WRITE_FAULT, run_show, status_line,
};
use std::test::Fail;

// Words that are not `show` and one spec.
const NOT_SHOW: [&[&str]; 22] = [
    &[],
    &["show"],
    &["list", "a"],
    &["Show", "a"],
    &["show", "a", "b"],
    &["show", "-a"],
    &["show", "-::a"],
    &["show", "--help"],
    &["--help"],
    &["show", ""],
    &["show", "  "],
    &["show", "\u{e4}"],
    &["show", "::x"],
    &["show", "a?"],
    &["show", "a b c d"],
    &["show", "a[x=1]"],
    &["show", "a[version=]"],
    &["show", "a[fn=\"x]"],
    &["show", "a=>1"],
    &["show", "a (1"],
    &["show", "a[md5=00]"],
    &["show", "a]"],
];

// Specs, and whether they match the one file, whose name is a-1-0.conda.
const SPECS: [(&str, bool); 24] = [
    ("a", true),
    ("A", true),
    (" a ", true),
    ("_a", false),
    (".", false),
    ("a-B_9.z", false),
    ("0", false),
    ("b", false),
    ("a>=1", true),
    ("a >1", false),
    ("a 1|2", true),
    ("a=1", true),
    ("a=1.0=0", true),
    ("a==1=1", false),
    ("a * 0*", true),
    ("a b", false),
    ("x::a", false),
    (" -::a", true),
    (" -/-::a", true),
    (" -/noarch::a", false),
    ("a[build_number=\">0\"]", false),
    ("a[build_number=0, version='<2']", true),
    ("a[fn='a-1-0.conda']", true),
    (
        "a[sha256=0000000000000000000000000000000000000000000000000000000000000000]",
        false,
    ),
];

#[test]
fn refuses_words_that_are_not_those_of_show(rt: HostRuntime) -> Result<(), Fail> {
    let alloc = rt.alloc();
    for line in NOT_SHOW {
        let words = words_of(alloc, line)?;
        let mut input = source(alloc, bytes_of(alloc, ONE_FILE)?, 1, &[0])?;
        let mut out = sink(alloc, ROOM, 1, &[0])?;
        let answer = run_show(alloc, words.as_slice(), &mut input, &mut out);
        assert_eq!(rt; seen(answer), (USAGE, None), "{line:?}");
        assert_eq!(rt; out.written(), [].as_slice(), "{line:?}");
    }
    Ok(())
}

#[test]
fn shows_the_file_where_the_spec_matches_it(rt: HostRuntime) -> Result<(), Fail> {
    let alloc = rt.alloc();
    for (spec, is_matched) in SPECS {
        let mut out = sink(alloc, ROOM, usize::MAX, &[])?;
        let answer = show(alloc, spec, bytes_of(alloc, ONE_FILE)?, &mut out)?;
        let text = if is_matched { ONE_LINE } else { "" };
        assert_eq!(rt; seen(answer), (OK, None), "{spec}");
        assert_eq!(rt; out.written(), text.as_bytes(), "{spec}");
    }
    Ok(())
}

#[test]
fn each_status_has_its_number_and_its_line(rt: HostRuntime) {
    for (status, number, line) in [
        (OK, 0, None),
        (
            NOT_ANSWERED,
            1,
            Some("gateway: some requests were not answered"),
        ),
        (USAGE, 2, Some("gateway: usage")),
        (READ_FAULT, 3, Some("gateway: read fault")),
        (WRITE_FAULT, 4, Some("gateway: write fault")),
        (OUT_OF_MEMORY, 5, Some("gateway: out of memory")),
        (TOO_MUCH_INPUT, 6, Some("gateway: too much input")),
        (STORE_FAULT, 7, Some("gateway: store fault")),
        (BAD_FILE, 8, Some("gateway: bad file")),
        (255, 255, None),
    ] {
        assert_eq!(rt; status, number);
        assert_eq!(rt; status_line(status), line, "{number}");
    }
}
