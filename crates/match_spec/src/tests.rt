//! Specs worked out by hand (docs/FORMATS.md, "Specs"): what each matches, and what is refused.

use crate::{Spec, SpecFault, SpecRefusal};
use conda_record::PackageRecord;
use mp_codec::Cursor;
use std::alloc::Global;
use std::process::Abort;
use std::test::*;

// Records as they are spelled, each with the channel, the subdir and the file name that list it.
const LISTED: [(&[u8], &str, &str, &str); 12] = [
    (
        b"\x84\
        \xa4name\xa3foo\xa7version\xa31.0\xa5build\xa6py27_0\
        \xacbuild_number\x00",
        "conda-forge",
        "linux-64",
        "foo-1.0-py27_0.conda",
    ),
    (
        b"\x84\
        \xa4name\xa3foo\xa7version\xa51.0.5\xa5build\xa6py27_0\
        \xacbuild_number\x01",
        "conda-forge",
        "linux-64",
        "foo-1.0.5-py27_0.conda",
    ),
    (
        b"\x84\
        \xa4name\xa3foo\xa7version\xa51.0.0\xa5build\xa6py27_0\
        \xacbuild_number\x02",
        "conda-forge",
        "noarch",
        "foo-1.0.0-py27_0.conda",
    ),
    (
        b"\x84\
        \xa4name\xa3foo\xa7version\xa51.4.9\xa5build\xa6py27_0\
        \xacbuild_number\x0a",
        "bioconda",
        "linux-64",
        "foo-1.4.9-py27_0.conda",
    ),
    (
        b"\x84\
        \xa4name\xa3foo\xa7version\xa31.5\xa5build\xa6py27_0\
        \xacbuild_number\xcf\xff\xff\xff\xff\xff\xff\xff\xff",
        "bioconda",
        "noarch",
        "foo-1.5-py27_0.conda",
    ),
    (
        b"\x85\
        \xa4name\xa3Foo\xa7version\xa32.0\xa5build\xa9py310h1_0\
        \xacbuild_number\x00\
        \xa3md5\xc4\x10\xab\xab\xab\xab\xab\xab\xab\xab\xab\xab\xab\xab\xab\xab\xab\xab",
        "bioconda",
        "noarch",
        "Foo-2.0-py310h1_0.conda",
    ),
    (
        b"\x85\
        \xa4name\xa3foo\xa7version\xa32.1\xa5build\xaacuda_py310\
        \xacbuild_number\x05\
        \xa6sha256\xc4\x20\xcd\xcd\xcd\xcd\xcd\xcd\xcd\xcd\xcd\xcd\xcd\xcd\xcd\xcd\xcd\xcd\xcd\xcd\xcd\xcd\xcd\xcd\xcd\xcd\xcd\xcd\xcd\xcd\xcd\xcd\xcd\xcd",
        "conda-forge",
        "noarch",
        "foo-2.1-cuda_py310.conda",
    ),
    (
        b"\x84\
        \xa4name\xa3foo\xa7version\xa1?\xa5build\xa10\
        \xacbuild_number\x03",
        "local",
        "linux-64",
        "q.conda",
    ),
    (
        b"\x86\
        \xa4name\xa3foo\xa7version\xa41.0a\xa5build\xa2py\
        \xacbuild_number\x07\
        \xa3md5\xc4\x10\xab\xab\xab\xab\xab\xab\xab\xab\xab\xab\xab\xab\xab\xab\xab\xab\
        \xa6sha256\xc4\x20\xcd\xcd\xcd\xcd\xcd\xcd\xcd\xcd\xcd\xcd\xcd\xcd\xcd\xcd\xcd\xcd\xcd\xcd\xcd\xcd\xcd\xcd\xcd\xcd\xcd\xcd\xcd\xcd\xcd\xcd\xcd\xcd",
        "conda-forge",
        "linux-64",
        "foo, 1.0a.conda",
    ),
    (
        b"\x84\
        \xa4name\xa3bar\xa7version\xa31.0\xa5build\xa6py27_0\
        \xacbuild_number\x00",
        "conda-forge",
        "linux-64",
        "bar-1.0-py27_0.conda",
    ),
    (
        b"\x84\
        \xa4name\xa3foo\xa7version\xa51!1.0\xa5build\xa0\
        \xacbuild_number\x00",
        "a::b",
        "s s",
        "x",
    ),
    (
        b"\x85\
        \xa4name\xa3foo\xa7version\xa13\xa5build\xa3a*b\
        \xacbuild_number\x04\
        \xa3md5\xc4\x10\x00\x00\x00\x00\x00\x00\x00\x00\x00\x00\x00\x00\x00\x00\x00\x00",
        "https://h/c",
        "linux-64",
        "foo-3.conda",
    ),
];

// Specs without a bracket, and for each of these records whether it matches, the first one in the
// highest bit.
const OUTSIDE: [(&str, u16); 52] = [
    ("foo", 0b111111111011),
    ("FOO", 0b111111111011),
    ("bar", 0b000000000100),
    ("baz", 0b000000000000),
    ("foo=1.0", 0b111000001000),
    ("foo 1.0.*", 0b111000001000),
    ("foo==1.0", 0b101000000000),
    ("foo 1.0", 0b101000000000),
    ("foo=1.0=py27_0", 0b101000000000),
    ("foo~=1.4.2", 0b000100000000),
    ("foo=*=py*", 0b111111001000),
    ("foo >=1.0", 0b111111100011),
    ("foo>=1.0,<2", 0b111110000000),
    ("foo >= 1.0 , < 2", 0b111110000000),
    ("foo <1.0", 0b000000001000),
    ("foo <=1.0", 0b101000001000),
    ("foo >2", 0b000000100011),
    ("foo !=1.0", 0b010111101011),
    ("foo !=1.0.*", 0b000111100011),
    ("foo 1.0|1.5", 0b101010000000),
    ("foo 1.0  |  1.5", 0b101010000000),
    ("foo ( 1.0 | 1.5 ) , != 1.0.0", 0b000010000000),
    ("foo *", 0b111111111011),
    ("foo =*", 0b111111111011),
    ("foo ~=1.0", 0b111110000000),
    ("foo 1!1", 0b000000000010),
    ("foo=1!1.0=*", 0b000000000010),
    ("foo 1.0 py27_0", 0b101000000000),
    ("foo  1.0   py*  ", 0b101000000000),
    ("foo * *", 0b111111111011),
    ("foo * **", 0b111111111011),
    ("foo * *_0", 0b111111000000),
    ("foo * *py*", 0b111111101000),
    ("foo * p*2*0", 0b111110000000),
    ("foo * *_*_*", 0b000000000000),
    ("foo * a*b", 0b000000000001),
    ("foo * py27_0*", 0b111110000000),
    ("foo * PY*", 0b000000000000),
    ("foo * py310h1", 0b000000000000),
    ("foo=1.0*=py27_0", 0b111000000000),
    ("foo==1.0=py27_0", 0b101000000000),
    ("foo=1.0.*=*", 0b111000001000),
    ("foo= 1.0=py27_0", 0b101000000000),
    ("foo=1.0=*_0", 0b101000000000),
    ("conda-forge::foo", 0b111000101000),
    ("conda-forge/linux-64::foo", 0b110000001000),
    ("bioconda/noarch::foo", 0b000011000000),
    ("a::b::foo", 0b000000000010),
    ("a::b/s s::foo", 0b000000000010),
    ("https://h/c/linux-64::foo", 0b000000000001),
    ("  conda-forge::  foo  ", 0b111000101000),
    ("conda::foo", 0b000000000000),
];

// The same of specs with a bracket.
const BRACKETS: [(&str, u16); 37] = [
    ("foo[version=1.0]", 0b101000000000),
    ("foo[version='>=1.0,<2']", 0b111110000000),
    ("foo[version=\">=1.0,<2\"]", 0b111110000000),
    ("foo[version=>=1.4]", 0b000111100011),
    ("foo[version=\" 1.0 \"]", 0b101000000000),
    ("foo[build=py27_0]", 0b111110000000),
    ("foo[build='*310*']", 0b000001100000),
    ("foo[build_number=0]", 0b100001000010),
    ("foo[build_number=010]", 0b000100000000),
    ("foo[build_number=\"==5\"]", 0b000000100000),
    ("foo[build_number='!=0']", 0b011110111001),
    ("foo[build_number='<3']", 0b111001000010),
    ("foo[build_number=<=3]", 0b111001010010),
    ("foo[build_number=\">4\"]", 0b000110101000),
    ("foo[build_number=\">=4\"]", 0b000110101001),
    ("foo[build_number=>9]", 0b000110000000),
    ("foo[build_number=18446744073709551615]", 0b000010000000),
    ("foo[channel=bioconda]", 0b000111000000),
    ("foo[channel=\"a::b\"]", 0b000000000010),
    ("foo[subdir=noarch]", 0b001011100000),
    ("foo[ subdir = 's s' ]", 0b000000000010),
    ("foo[md5=abababababababababababababababab]", 0b000001001000),
    ("foo[md5=ABABABABABABABABABABABABABABABAB]", 0b000001001000),
    ("foo[md5=00000000000000000000000000000000]", 0b000000000001),
    (
        "foo[sha256=cdcdcdcdcdcdcdcdcdcdcdcdcdcdcdcdcdcdcdcdcdcdcdcdcdcdcdcdcdcdcdcd]",
        0b000000101000,
    ),
    (
        "foo[md5='abababababababababababababababab',sha256=CDCDCDCDCDCDCDCDCDCDCDCDCDCDCDCDCDCDCDCDCDCDCDCDCDCDCDCDCDCDCDCD]",
        0b000000001000,
    ),
    ("foo[fn=foo-1.0-py27_0.conda]", 0b100000000000),
    ("foo[fn=\"foo, 1.0a.conda\"]", 0b000000001000),
    ("foo[fn='q.conda']", 0b000000010000),
    ("foo[fn=a[b]", 0b000000000000),
    ("foo 1.5[version=1.0]", 0b101000000000),
    (
        "foo 1.0 py27_0[build=py310h1_0,version=2.0]",
        0b000001000000,
    ),
    (
        "bioconda/linux-64::foo[channel=conda-forge]",
        0b110000001000,
    ),
    ("conda-forge/noarch::foo[subdir=linux-64]", 0b110000001000),
    ("foo[]", 0b111111111011),
    ("foo [  ]", 0b111111111011),
    (
        "conda-forge/noarch::FOO >=2 *py310 [build_number=5, sha256='cdcdcdcdcdcdcdcdcdcdcdcdcdcdcdcdcdcdcdcdcdcdcdcdcdcdcdcdcdcdcdcd' , fn=foo-2.1-cuda_py310.conda]",
        0b000000100000,
    ),
];

const REFUSED: [(&str, SpecFault); 96] = [
    ("", SpecFault::Empty),
    ("   ", SpecFault::Empty),
    ("::x", SpecFault::NoName),
    ("a::", SpecFault::NoName),
    ("/x::a", SpecFault::NoName),
    ("a/::b", SpecFault::NoName),
    ("[version=1]", SpecFault::NoName),
    ("?", SpecFault::NoName),
    ("=1.0", SpecFault::NoName),
    ("a::[fn=x]", SpecFault::NoName),
    ("::a?", SpecFault::NoName),
    ("a?", SpecFault::Name(1)),
    ("conda-forge::a,b", SpecFault::Name(14)),
    ("  a?", SpecFault::Name(3)),
    ("a/b", SpecFault::Name(1)),
    ("a:b", SpecFault::Name(1)),
    ("a]b", SpecFault::Name(1)),
    ("a|1", SpecFault::Name(1)),
    ("a\tb", SpecFault::Name(1)),
    ("a\u{e9}", SpecFault::Name(1)),
    ("a b c d", SpecFault::Build(5)),
    ("a  b  c  d", SpecFault::Build(7)),
    ("a =>1 b c", SpecFault::Build(7)),
    ("a >= 1 b c", SpecFault::Build(8)),
    ("a=>1", SpecFault::Version(1)),
    ("a  =>1", SpecFault::Version(3)),
    ("a 1..2", SpecFault::Version(2)),
    ("a =>1 ?", SpecFault::Version(2)),
    ("a=1..2=b?", SpecFault::Version(1)),
    ("a==1=b=c", SpecFault::Version(1)),
    ("a 1\u{e9}", SpecFault::Version(2)),
    ("a 1,", SpecFault::Version(2)),
    ("a 1 ?", SpecFault::Build(4)),
    ("a 1 b,c", SpecFault::Build(4)),
    ("a 1 =b", SpecFault::Build(4)),
    ("a=1.0=", SpecFault::Build(6)),
    ("a=1.0= ", SpecFault::Build(6)),
    ("a=1.0=b?", SpecFault::Build(6)),
    ("a=1.0= b?", SpecFault::Build(7)),
    ("a = 1.0 = b", SpecFault::Build(8)),
    ("a 1 \u{e9}", SpecFault::Build(4)),
    ("a]", SpecFault::Bracket(1)),
    ("]", SpecFault::Bracket(0)),
    ("[", SpecFault::Bracket(0)),
    ("a[x", SpecFault::Bracket(1)),
    ("a[fn=x]b", SpecFault::Bracket(1)),
    ("  a[fn=x] ]b", SpecFault::Bracket(3)),
    ("a[fn=\"x]", SpecFault::Bracket(5)),
    ("a[fn='x\"]", SpecFault::Bracket(5)),
    ("::[fn=\"x]", SpecFault::Bracket(6)),
    ("a? [fn='x]", SpecFault::Bracket(7)),
    ("a[x=1,fn= 'x]", SpecFault::Bracket(10)),
    ("a[x=1]", SpecFault::Key(2)),
    ("a[version]", SpecFault::Key(2)),
    ("a[ version ]", SpecFault::Key(3)),
    ("a[,]", SpecFault::Key(2)),
    ("a[fn=x,]", SpecFault::Key(7)),
    ("a[fn=x, ]", SpecFault::Key(8)),
    ("a[fn=x,fn=y]", SpecFault::Key(7)),
    ("a[fn=x,version=1, fn='y']", SpecFault::Key(18)),
    ("a[Version=1]", SpecFault::Key(2)),
    ("a[url=x]", SpecFault::Key(2)),
    ("a[=1]", SpecFault::Key(2)),
    ("a['x]", SpecFault::Key(2)),
    ("a[x'=1]", SpecFault::Key(2)),
    ("a[zz='x'y]", SpecFault::Key(2)),
    ("a[version=]", SpecFault::Value(10)),
    ("a[version= ]", SpecFault::Value(11)),
    ("a[version=1..2]", SpecFault::Value(10)),
    ("a[version='']", SpecFault::Value(11)),
    ("a[version='=>1']", SpecFault::Value(11)),
    ("a[build=]", SpecFault::Value(8)),
    ("a[build='a b']", SpecFault::Value(9)),
    ("a[build= a?]", SpecFault::Value(9)),
    ("a[build_number=]", SpecFault::Value(15)),
    ("a[build_number=x]", SpecFault::Value(15)),
    ("a[build_number==1]", SpecFault::Value(15)),
    ("a[build_number='> 1']", SpecFault::Value(16)),
    ("a[build_number=18446744073709551616]", SpecFault::Value(15)),
    ("a[build_number=-1]", SpecFault::Value(15)),
    ("a[build_number=~=1]", SpecFault::Value(15)),
    ("a[build_number=>]", SpecFault::Value(15)),
    ("a[channel=]", SpecFault::Value(10)),
    ("a[channel='']", SpecFault::Value(11)),
    ("a[subdir=]", SpecFault::Value(9)),
    ("a[md5=ab]", SpecFault::Value(6)),
    (
        "a[md5=abababababababababababababababag]",
        SpecFault::Value(6),
    ),
    (
        "a[md5=abababababababababababababababa]",
        SpecFault::Value(6),
    ),
    (
        "a[sha256=abababababababababababababababab]",
        SpecFault::Value(9),
    ),
    ("a[fn=]", SpecFault::Value(5)),
    ("a[fn='x'y]", SpecFault::Value(5)),
    ("a[fn='' x]", SpecFault::Value(5)),
    ("a[fn='']", SpecFault::Value(6)),
    ("a[fn='x' y, version=?]", SpecFault::Value(5)),
    ("a 1..2[zz=1]", SpecFault::Version(2)),
    ("a =>1[version=1]", SpecFault::Version(2)),
];

// A spec with all that can stand in one. The bracket's parts take the places of those outside it.
const WHOLE: &str =
    "bioconda/linux-64::FOO >=2,<2.1 py* [version='>=1.0a,<1.0|5', build=\"p*\", build_number='>=7', \
    channel=conda-forge, subdir='linux-64', md5=abababababababababababababababab, \
    sha256=CDCDCDCDCDCDCDCDCDCDCDCDCDCDCDCDCDCDCDCDCDCDCDCDCDCDCDCDCDCDCDCD, fn='foo, 1.0a.conda']";

fn spec(alloc: Global, text: &str) -> Result<Spec, Fail> {
    match Spec::read(alloc, text) {
        Ok(spec) => Ok(spec),
        Err(refusal) => Err(refusal.into()),
    }
}

// Whether a spec matches the record that some bytes spell.
fn matches(
    alloc: Global,
    spec: &Spec,
    bytes: &[u8],
    place: (&str, &str, &str),
) -> Result<bool, Fail> {
    let (channel, subdir, file) = place;
    match PackageRecord::read(alloc, &mut Cursor::new(bytes)) {
        Ok(record) => Ok(spec.matches(record.view(), channel, subdir, file)),
        Err(refusal) => Err(refusal.into()),
    }
}

// For each record a bit that says whether the spec matches it, the last one in the lowest bit.
fn answers(alloc: Global, text: &str) -> Result<u16, Fail> {
    let spec = spec(alloc, text)?;
    let mut answers = 0u16;
    for (bytes, channel, subdir, file) in LISTED {
        let is_match = matches(alloc, &spec, bytes, (channel, subdir, file))?;
        answers = answers.wrapping_mul(2) | u16::from(is_match);
    }
    Ok(answers)
}

// Stops where a spec doesn't match the records that it should.
fn expect_answers(rt: &impl Abort, alloc: Global, text: &str, wanted: u16) -> Result<(), Fail> {
    let found = answers(alloc, text)?;
    assert!(rt; found == wanted, "{text}: {found:b}");
    Ok(())
}

// Whether a text is refused with this fault.
fn is_refused(alloc: Global, text: &str, fault: SpecFault) -> bool {
    Spec::read(alloc, text).err() == Some(SpecRefusal::Fault(fault))
}

#[test]
fn specs_match_records(rt: HostRuntime) -> Result<(), Fail> {
    for (text, wanted) in OUTSIDE {
        expect_answers(&rt, rt.alloc(), text, wanted)?;
    }
    Ok(())
}

#[test]
fn brackets_match_records(rt: HostRuntime) -> Result<(), Fail> {
    for (text, wanted) in BRACKETS {
        expect_answers(&rt, rt.alloc(), text, wanted)?;
    }
    Ok(())
}

// The test in which each allocation is made to fail in turn.
#[test]
fn a_whole_spec_matches_its_record(rt: HostRuntime) -> Result<(), Fail> {
    let spec = spec(rt.alloc(), WHOLE)?;
    let (bytes, channel, subdir, file) = LISTED[8];
    assert!(rt; matches(rt.alloc(), &spec, bytes, (channel, subdir, file))?);
    Ok(())
}

#[test]
fn the_name_is_in_lower_case(rt: HostRuntime) -> Result<(), Fail> {
    let spec = spec(rt.alloc(), "c/s::Foo-Bar_1.2=1.0=b")?;
    assert!(rt; spec.name().as_str() == "foo-bar_1.2");
    Ok(())
}

#[test]
fn refuses_what_is_no_spec(rt: HostRuntime) {
    for (text, fault) in REFUSED {
        assert!(rt; is_refused(rt.alloc(), text, fault), "{text}");
    }
}
