//! Requests to channels, and what is written for them.

use crate::tests::channels::{channels, is_answered, take};
use gateway_tool::{NOT_ANSWERED, OK, USAGE};
use std::test::Fail;

// The options of the runs below, by the letter of the channel.
const C: &[&str] = &["--channels=c", "--subdirs=noarch"];

const L: &[&str] = &["--channels=l", "--subdirs=noarch"];

const T: &[&str] = &["--channels=t", "--subdirs=noarch"];

const W: &[&str] = &["--channels=w", "--subdirs=noarch"];

const STRICT: &[&str] = &["--channels=A,B", "--subdirs=noarch", "--priority=strict"];

const ALL: &[&str] = &["--channels=t", "--subdirs=noarch", "--format=all"];

const FLAT: &[&str] = &["--flat", "--subdirs=noarch", "--channels=c"];

// Options, an input, the status, and what is written.
const RUNS: [(&[&str], &[u8], u8, &str); 32] = [
    (
        C,
        b"a\n",
        OK,
        "request 1 ok 3\nc/noarch/a-1-0.tar.bz2 1 0 0\nc/noarch/a-2-0.conda 2 0 0\n\
         c/noarch/b-1-0.conda 1 0 0\n",
    ),
    (
        FLAT,
        b"a",
        OK,
        "request 1 ok 2\nc/noarch/a-1-0.tar.bz2 1 0 0\nc/noarch/a-2-0.conda 2 0 0\n",
    ),
    (
        C,
        b";\na\n",
        NOT_ANSWERED,
        "request 1 refused 1 1\nrequest 2 ok 3\nc/noarch/a-1-0.tar.bz2 1 0 0\n\
         c/noarch/a-2-0.conda 2 0 0\nc/noarch/b-1-0.conda 1 0 0\n",
    ),
    (
        &["--channels=conda-forge", "--subdirs=linux-64,noarch"],
        b"numpy >=1.26\n",
        OK,
        "request 1 ok 4\n\
         conda-forge/linux-64/libblas-3.9.0-20_openblas.conda 3.9.0 20_openblas 20\n\
         conda-forge/linux-64/numpy-1.26.4-py312h0_0.conda 1.26.4 py312h0_0 0\n\
         conda-forge/linux-64/python-3.12.1-h1_0_cpython.conda 3.12.1 h1_0_cpython 0\n\
         conda-forge/noarch/python_abi-3.12-4_cp312.conda 3.12 4_cp312 4\n",
    ),
    (
        &["--channels=conda-forge", "--subdirs=noarch,linux-64"],
        b"numpy >=1.26",
        OK,
        "request 1 ok 4\n\
         conda-forge/noarch/python_abi-3.12-4_cp312.conda 3.12 4_cp312 4\n\
         conda-forge/linux-64/libblas-3.9.0-20_openblas.conda 3.9.0 20_openblas 20\n\
         conda-forge/linux-64/numpy-1.26.4-py312h0_0.conda 1.26.4 py312h0_0 0\n\
         conda-forge/linux-64/python-3.12.1-h1_0_cpython.conda 3.12.1 h1_0_cpython 0\n",
    ),
    // A cycle, a name that depends on itself, and one that is listed nowhere.
    (
        L,
        b"a\n",
        OK,
        "request 1 ok 3\nl/noarch/a-1-0.conda 1.0 0 0\nl/noarch/b-1-0.conda 1.0 0 0\n\
         l/noarch/b-2-0.conda 2.0 0 0\n",
    ),
    (
        L,
        b"nowhere\r\n\n",
        NOT_ANSWERED,
        "request 1 ok 0\nrequest 2 refused 1 1\n",
    ),
    // A root that is reached too, and two specs of one name.
    (
        L,
        b"a; b 1.0\n",
        OK,
        "request 1 ok 2\nl/noarch/a-1-0.conda 1.0 0 0\nl/noarch/b-1-0.conda 1.0 0 0\n",
    ),
    (
        C,
        b"a;b 2",
        OK,
        "request 1 ok 2\nc/noarch/a-1-0.tar.bz2 1 0 0\nc/noarch/a-2-0.conda 2 0 0\n",
    ),
    (
        FLAT,
        b"a 1;A 2",
        OK,
        "request 1 ok 2\nc/noarch/a-1-0.tar.bz2 1 0 0\nc/noarch/a-2-0.conda 2 0 0\n",
    ),
    (
        C,
        b"a 3;a 2",
        OK,
        "request 1 ok 1\nc/noarch/a-2-0.conda 2 0 0\n",
    ),
    // Many names in one record.
    (
        W,
        b"a",
        OK,
        "request 1 ok 3\nw/noarch/a-1-0.conda 1 0 0\nw/noarch/b-1-0.conda 1 0 0\n\
         w/noarch/z9-1-0.conda 1 0 0\n",
    ),
    // Twins.
    (
        T,
        b"x",
        OK,
        "request 1 ok 2\nt/noarch/x-1-0.conda 1 0 0\nt/noarch/x-2-0.tar.bz2 2 0 0\n",
    ),
    (
        ALL,
        b"x",
        OK,
        "request 1 ok 4\nt/noarch/x-1-0.conda 1 0 0\nt/noarch/x-1-0.tar.bz2 1 0 0\n\
         t/noarch/x-2-0.tar.bz2 2 0 0\nt/noarch/y-1-0.conda 1 0 0\n",
    ),
    (T, b"x[fn='x-1-0.tar.bz2']", OK, "request 1 ok 0\n"),
    (
        ALL,
        b"x[fn='x-1-0.tar.bz2']",
        OK,
        "request 1 ok 2\nt/noarch/x-1-0.tar.bz2 1 0 0\nt/noarch/y-1-0.conda 1 0 0\n",
    ),
    (
        &["--channels=t", "--subdirs=noarch", "--format=prefer-conda"],
        b"x==1",
        OK,
        "request 1 ok 1\nt/noarch/x-1-0.conda 1 0 0\n",
    ),
    // Two channels.
    (
        &["--channels=A,B", "--subdirs=noarch"],
        b"x>=2",
        OK,
        "request 1 ok 1\nB/noarch/x-2-0.conda 2.0 0 0\n",
    ),
    (
        &["--channels=A,B", "--subdirs=noarch", "--priority=flexible"],
        b"B::x\nx",
        OK,
        "request 1 ok 1\nB/noarch/x-2-0.conda 2.0 0 0\n\
         request 2 ok 2\nA/noarch/x-1-0.conda 1.0 0 0\nB/noarch/x-2-0.conda 2.0 0 0\n",
    ),
    (
        &["--channels=B,A", "--subdirs=noarch"],
        b"x",
        OK,
        "request 1 ok 2\nB/noarch/x-2-0.conda 2.0 0 0\nA/noarch/x-1-0.conda 1.0 0 0\n",
    ),
    (
        STRICT,
        b"x>=2\nB::x\ny\nx",
        OK,
        "request 1 ok 0\nrequest 2 ok 0\nrequest 3 ok 1\nB/noarch/y-1-0.conda 1.0 0 0\n\
         request 4 ok 1\nA/noarch/x-1-0.conda 1.0 0 0\n",
    ),
    // A name in upper case in an index, and records of another name in a shard.
    (
        &["--channels=h", "--subdirs=noarch"],
        b"b\nA\na\nz\n",
        OK,
        "request 1 ok 1\nh/noarch/b-1-0.tar.bz2 1 0 0\nrequest 2 ok 0\nrequest 3 ok 0\n\
         request 4 ok 0\n",
    ),
    // Lines that are no requests, and no line.
    (
        C,
        b"\xff\nb\r\n",
        NOT_ANSWERED,
        "request 1 refused 0 9\nrequest 2 ok 1\nc/noarch/b-1-0.conda 1 0 0\n",
    ),
    (C, b"a;b[x=1]\n", NOT_ANSWERED, "request 1 refused 2 7\n"),
    (C, b"", OK, ""),
    (C, b"\n", NOT_ANSWERED, "request 1 refused 1 1\n"),
    (&["--channels=none", "--subdirs=noarch"], b"", OK, ""),
    (
        &["--channels=none", "--subdirs=noarch"],
        b";",
        NOT_ANSWERED,
        "request 1 refused 1 1\n",
    ),
    // As many channels and subdirs as there may be, and one more of each.
    (
        &[
            "--subdirs=noarch",
            "--channels=a,b,c,d,e,f,g,h,i,j,k,l,m,n,o,p",
        ],
        b"",
        OK,
        "",
    ),
    (
        &["--subdirs=a,b,c,d,e,f,g,h,i,j,k,l,m,n,o,p", "--channels=c"],
        b"",
        OK,
        "",
    ),
    (
        &[
            "--subdirs=noarch",
            "--channels=a,b,c,d,e,f,g,h,i,j,k,l,m,n,o,p,q",
        ],
        b"",
        USAGE,
        "",
    ),
    (
        &[
            "--subdirs=a,b,c,d,e,f,g,h,i,j,k,l,m,n,o,p,q",
            "--channels=c",
        ],
        b"",
        USAGE,
        "",
    ),
];

#[test]
fn answers_requests_line_by_line(rt: HostRuntime) -> Result<(), Fail> {
    let alloc = rt.alloc();
    let mut store = channels(alloc)?;
    for (options, input, status, text) in RUNS {
        let is_so = is_answered(alloc, &mut store, options, input, status, text)?;
        assert!(rt; is_so, "{options:?} {text}");
    }
    Ok(())
}

// Shards that are taken away, and requests that have no need of them: the shard of `y` in `t`, on which
// a twin alone depends, that of `x` in `B` behind a channel that lists it, and that of `b` in `c`.
const NOT_NEEDED: [(&str, &[&str], &str); 3] = [
    (
        "t/noarch/shards/7148459ac6f289d2a047e22de2b80aea0cc537db7aa06b028ee732639cc0fa32.msgpack",
        T,
        "request 1 ok 2\nt/noarch/x-1-0.conda 1 0 0\nt/noarch/x-2-0.tar.bz2 2 0 0\n",
    ),
    (
        "B/noarch/shards/9e40a25efedd099a3f0b8c732568045e8643b58573e7da09e1546b085af8bf01.msgpack",
        STRICT,
        "request 1 ok 1\nA/noarch/x-1-0.conda 1.0 0 0\n",
    ),
    (
        "c/noarch/shards/002982ea29af2d914f2e3437a96bc86536daef40ee6ac83c8dd339b2e1557a89.msgpack",
        C,
        "request 1 ok 0\n",
    ),
];

#[test]
fn asks_for_no_shard_that_is_not_needed(rt: HostRuntime) -> Result<(), Fail> {
    let alloc = rt.alloc();
    let mut store = channels(alloc)?;
    for (name, options, text) in NOT_NEEDED {
        assert!(rt; store.file(name).is_some(), "{name}");
        take(alloc, &mut store, name)?;
        let is_so = is_answered(alloc, &mut store, options, b"x", OK, text)?;
        assert!(rt; is_so, "{name}");
    }
    Ok(())
}

// Words that are not those of `closure`.
const NOT_CLOSURE: [&[&str]; 24] = [
    &[],
    &["--channels=c"],
    &["--subdirs=noarch"],
    &["--channels=", "--subdirs=noarch"],
    &["--channels", "--subdirs=noarch"],
    &["--channels=c,", "--subdirs=noarch"],
    &["--channels=c,,d", "--subdirs=noarch"],
    &["--channels=c,c", "--subdirs=noarch"],
    &["--channels=..", "--subdirs=noarch"],
    &["--channels=c/d", "--subdirs=noarch"],
    &["--channels= c", "--subdirs=noarch"],
    &["--channels=c", "--channels=d", "--subdirs=noarch"],
    &["--channels=c", "--subdirs=no.arch"],
    &["--channels=c", "--subdirs=noarch,noarch"],
    &["--channels=c", "--subdirs=x", "--subdirs=y"],
    &["--channels=c", "--subdirs=noarch", "--flat", "--flat"],
    &["--channels=c", "--subdirs=noarch", "--flat="],
    &["--channels=c", "--subdirs=noarch", "--format=conda"],
    &[
        "--channels=c",
        "--subdirs=noarch",
        "--format=all",
        "--format=all",
    ],
    &["--channels=c", "--subdirs=noarch", "--priority="],
    &[
        "--channels=c",
        "--subdirs=noarch",
        "--priority=strict",
        "--priority=flexible",
    ],
    &["--channels=c", "--subdirs=noarch", "--workers=1"],
    &["--channels=c", "--subdirs=noarch", "a"],
    &["--channels=c", "--subdirs=noarch", ""],
];

#[test]
fn refuses_words_that_are_not_those_of_closure(rt: HostRuntime) -> Result<(), Fail> {
    let alloc = rt.alloc();
    let mut store = channels(alloc)?;
    for options in NOT_CLOSURE {
        let is_so = is_answered(alloc, &mut store, options, b"a", USAGE, "")?;
        assert!(rt; is_so, "{options:?}");
    }
    Ok(())
}
