//! Lines that are requests, and lines that are none.

use crate::options::{Format, Priority};
use crate::refusal::RequestRefusal;
use crate::request::Request;
use match_spec::SpecFault;
use std::alloc::Global;
use std::test::Fail;

// Lines with the number of their specs.
const LINES: [(&str, usize); 4] = [
    ("a", 1),
    (" a ; b >=1,<2 ", 2),
    ("a;a;A", 3),
    ("a[version='>=1'];c::b", 2),
];

// Lines that are refused, with the number of the first piece that is no spec.
const REFUSED: [(&str, u64); 5] = [("", 1), (";", 1), ("a;", 2), ("a;;b", 2), ("a;b;c; ", 4)];

// The request of a line, of no channels and no subdirs.
fn read(alloc: Global, line: &[u8]) -> Result<Request, RequestRefusal> {
    Request::read(
        alloc,
        &[],
        &[],
        false,
        Format::PreferConda,
        Priority::Flexible,
        line,
    )
}

// How many specs a line has, where it is a request.
fn count(alloc: Global, line: &str) -> Option<usize> {
    match read(alloc, line.as_bytes()) {
        Ok(request) => Some(request.specs.len()),
        Err(_) => None,
    }
}

#[test]
fn reads_the_specs_of_a_line(rt: HostRuntime) -> Result<(), Fail> {
    for (line, specs) in LINES {
        assert!(rt; count(rt.alloc(), line) == Some(specs));
    }
    Ok(())
}

#[test]
fn names_the_first_piece_that_is_no_spec(rt: HostRuntime) -> Result<(), Fail> {
    for (line, number) in REFUSED {
        let refusal = read(rt.alloc(), line.as_bytes()).err();
        assert!(rt; refusal == Some(RequestRefusal::Spec(number, SpecFault::Empty)));
    }
    Ok(())
}

#[test]
fn bytes_that_are_no_text_are_refused_first(rt: HostRuntime) -> Result<(), Fail> {
    assert!(rt; read(rt.alloc(), b";\xff").err() == Some(RequestRefusal::NotText));
    Ok(())
}
