//! The worked rows of versions and constraints (docs/FORMATS.md), each public call among them.

use super::*;
use std::alloc::Global;
use std::cmp::Ordering;
use std::test::*;

// Versions with their place in the order; those at one place are equal.
const IN_ORDER: [(&str, u32); 34] = [
    ("0.4", 0),
    ("0.4.0", 0),
    ("0.4.1.rc", 1),
    ("0.4.1.RC", 1),
    ("0.4.1", 2),
    ("0.5a1", 3),
    ("0.5b3", 4),
    ("0.5C1", 5),
    ("0.5", 6),
    ("1.0", 7),
    ("1.1dev1", 8),
    ("1.1_", 9),
    ("1.1a1", 10),
    ("1.1.0dev1", 11),
    ("1.1.dev1", 11),
    ("1.1.a1", 12),
    ("1.1.0rc1", 13),
    ("1.1.0", 14),
    ("1.1", 14),
    ("1.1.0post1", 15),
    ("1.1.post1", 15),
    ("1.1post1", 16),
    ("1.9", 17),
    ("1.10", 18),
    ("1.10+0", 18),
    ("1.10+1", 19),
    ("1.10+1.0", 19),
    ("1.10+1.1", 20),
    ("1996.07.12", 21),
    ("1996.7.12", 21),
    ("1!0.4.1", 22),
    ("01!0.4.1", 22),
    ("  1!2  ", 23),
    ("2!0", 24),
];

const REFUSED: [(&str, VersionFault); 22] = [
    ("", VersionFault::Empty),
    ("  ", VersionFault::Empty),
    ("1.0-1_2", VersionFault::Char(3)),
    ("  1?", VersionFault::Char(3)),
    ("?..", VersionFault::Char(0)),
    ("1 0", VersionFault::Char(1)),
    ("1\t", VersionFault::Char(1)),
    ("1*", VersionFault::Char(1)),
    ("1!2!3", VersionFault::Twice),
    ("1+2+3", VersionFault::Twice),
    ("1+2!3", VersionFault::Twice),
    ("a!+!", VersionFault::Twice),
    ("a!1", VersionFault::Epoch),
    ("!1", VersionFault::Epoch),
    ("a!", VersionFault::Epoch),
    ("1..2", VersionFault::EmptyPart),
    ("+1", VersionFault::EmptyPart),
    ("1!", VersionFault::EmptyPart),
    ("1+", VersionFault::EmptyPart),
    ("1+1_", VersionFault::EmptyPart),
    ("__", VersionFault::EmptyPart),
    (
        "340282366920938463463374607431768211456",
        VersionFault::Wide,
    ),
];

// A version, another one, and whether the first starts with the second.
const STARTS: [(&str, &str, bool); 16] = [
    ("1.0.5", "1.0", true),
    ("1.0", "1.0.0", true),
    ("1", "1.0", true),
    ("1.40", "1.4", false),
    ("1.5", "1", true),
    ("1.0", "1.5", false),
    ("1.0alpha", "1.0a", true),
    ("1.0a", "1.0alpha", false),
    ("1.0post", "1.0po", false),
    ("1.0devel", "1.0dev", false),
    ("1.0dev", "1.0dev", true),
    ("1.0_1", "1.0_", false),
    ("1!1.0", "1.0", false),
    ("1.0+2.3", "1.0", true),
    ("1.0+2.3", "1.0.0+2", true),
    ("1.0.1+2.3", "1.0+2", false),
];

const FAULTS: [(&str, ConstraintFault); 32] = [
    ("=>1", ConstraintFault::Operator(0)),
    ("1, !>2", ConstraintFault::Operator(3)),
    ("1|(=>2", ConstraintFault::Paren(2)),
    ("1.*.2", ConstraintFault::Star(2)),
    ("~=1.*", ConstraintFault::Star(4)),
    ("~=*", ConstraintFault::Star(2)),
    (">*", ConstraintFault::Star(1)),
    ("!=*", ConstraintFault::Star(2)),
    ("1**", ConstraintFault::Star(1)),
    ("*1", ConstraintFault::Star(0)),
    ("1*2?", ConstraintFault::Star(1)),
    ("~=1", ConstraintFault::Version(2)),
    ("~=1.", ConstraintFault::Version(2)),
    (".*", ConstraintFault::Version(0)),
    ("=.*", ConstraintFault::Version(1)),
    ("== 1?", ConstraintFault::Version(3)),
    (">= ", ConstraintFault::Version(3)),
    ("1 2", ConstraintFault::Version(0)),
    ("(1", ConstraintFault::Paren(0)),
    ("(1(2)", ConstraintFault::Paren(0)),
    ("1(2)", ConstraintFault::Paren(1)),
    ("(1)(2)", ConstraintFault::Paren(3)),
    ("(1)2", ConstraintFault::Paren(3)),
    ("(1)=>2", ConstraintFault::Operator(3)),
    ("1, 2 ) ", ConstraintFault::Paren(5)),
    ("1,", ConstraintFault::Empty(2)),
    ("1,  ", ConstraintFault::Empty(4)),
    ("1||2", ConstraintFault::Empty(2)),
    ("()", ConstraintFault::Empty(1)),
    (")", ConstraintFault::Empty(0)),
    ("", ConstraintFault::Empty(0)),
    ("?,", ConstraintFault::Version(0)),
];

// A constraint, a version's text, and whether the first allows the second.
const ALLOWED: [(&str, &str, bool); 50] = [
    ("=1.0", "1.0", true),
    ("=1.0", "1.0.5", true),
    ("=1.0", "1.0.0", true),
    ("=1.0", "1.4.9", false),
    ("1.0.*", "1.0.5", true),
    ("1.0.*", "1.5", false),
    ("1.0*", "1.0.5", true),
    ("1.0 .*", "1.0.5", true),
    ("==1.0", "1.0.0", true),
    ("==1.0", "1.0.5", false),
    ("==1.0.*", "1.0.5", false),
    ("1.0", "1.0.0", true),
    ("1.0", "1.0.5", false),
    ("~=1.4.2", "1.4.9", true),
    ("~=1.4.2", "1.5", false),
    ("~=1.4.2", "1.4.1", false),
    ("~=1.4.2", "2!1.4.9", false),
    ("~=1.0+2.3", "1.0+2.4", true),
    ("!=1.0", "1.0.5", true),
    ("!=1.0", "1.0.0", false),
    ("!=1.0.*", "1.0.5", false),
    ("!=1.0*", "1.1", true),
    ("<1.10", "1.9", true),
    ("<1.10", "1.10.0", false),
    ("<=1.10", "1.10.0", true),
    ("<=1.10*", "1.10.1", false),
    (">1.9", "1.10", true),
    (">1.9", "1.9.0", false),
    (">=1.9", "1.9.0", true),
    (">= 1.9.*", "1.8", false),
    (">=1.0,<2.0", "1.5", true),
    (">=1.0,<2.0", "2.0", false),
    ("1|2", "2", true),
    ("1|2", "3", false),
    ("1,2", "2", false),
    ("1|2,3", "1", true),
    ("1|2,3", "3", false),
    ("(1|2),!=2", "2", false),
    ("(1|2),!=2", "1", true),
    (" ( >1 , ( <3 | 4 ) ) | 0.5 ", "4", true),
    (" ( >1 , ( <3 | 4 ) ) | 0.5 ", "0.5", true),
    (" ( >1 , ( <3 | 4 ) ) | 0.5 ", "5", false),
    ("*", "1", true),
    ("*", "?", true),
    ("=*", "", true),
    ("== *", "1..2", true),
    ("!=1.0", "?", false),
    ("<1|>=1", "1..2", false),
    ("*,<2", "1..2", false),
    ("*|<2", "1..2", true),
];

#[test]
fn versions_are_in_order(rt: HostRuntime) -> Result<(), Fail> {
    for (left, left_place) in IN_ORDER {
        for (right, right_place) in IN_ORDER {
            let order = version(left)?.compare(version(right)?);
            assert!(rt;
                order == left_place.cmp(&right_place),
                "{left} beside {right}"
            );
        }
    }
    Ok(())
}

#[test]
fn an_underscore_at_the_end_is_below_a_letter(rt: HostRuntime) -> Result<(), Fail> {
    let order = version("1.0.1_")?.compare(version("1.0.1a")?);
    assert!(rt; order == Ordering::Less);
    let order = version("1.0-1")?.compare(version("1.0_1")?);
    assert!(rt; order == Ordering::Equal);
    Ok(())
}

#[test]
fn a_local_part_of_letters_is_below_none(rt: HostRuntime) -> Result<(), Fail> {
    let order = version("1+a")?.compare(version("1")?);
    assert!(rt; order == Ordering::Less);
    Ok(())
}

#[test]
fn refuses_what_is_no_version(rt: HostRuntime) {
    for (text, fault) in REFUSED {
        assert!(rt; Version::read(text).err() == Some(fault), "{text}");
    }
}

#[test]
fn versions_start_with_others(rt: HostRuntime) -> Result<(), Fail> {
    for (text, start, starts) in STARTS {
        assert!(rt;
            version(text)?.starts_with(version(start)?) == starts,
            "{text} with {start}"
        );
    }
    Ok(())
}

#[test]
fn refuses_what_is_no_constraint(rt: HostRuntime) {
    for (text, fault) in FAULTS {
        assert!(rt;
            refusal(rt.alloc(), text) == Some(ConstraintRefusal::Fault(fault)),
            "{text}"
        );
    }
}

#[test]
fn constraints_allow_versions(rt: HostRuntime) -> Result<(), Fail> {
    for (text, version, allowed) in ALLOWED {
        let constraint = constraint(rt.alloc(), text)?;
        assert!(rt;
            constraint.allows(version) == allowed,
            "{text} at {version}"
        );
    }
    Ok(())
}

#[test]
fn opens_64_levels_and_not_the_65th(rt: HostRuntime) -> Result<(), Fail> {
    let alloc = rt.alloc();
    let constraint = constraint(alloc, nested(alloc, 64)?.as_str())?;
    assert!(rt; constraint.allows("1.0"));
    let refused = refusal(alloc, nested(alloc, 65)?.as_str());
    assert!(rt; refused == Some(ConstraintRefusal::Fault(ConstraintFault::Paren(64))));
    Ok(())
}

fn version(text: &str) -> Result<Version<'_>, Fail> {
    Ok(Version::read(text).ok().ok_or("a version was refused")?)
}

fn constraint(alloc: Global, text: &str) -> Result<Constraint, Fail> {
    Ok(
        Constraint::read(alloc, text)
            .ok()
            .ok_or("a constraint was refused")?,
    )
}

fn refusal(alloc: Global, text: &str) -> Option<ConstraintRefusal> {
    Constraint::read(alloc, text).err()
}

// The constraint `1` in so many pairs of parentheses.
fn nested(alloc: Global, levels: usize) -> Result<String, Fail> {
    let mut text = String::new(alloc);
    for _ in 0..levels {
        text.push('(')?;
    }
    text.push('1')?;
    for _ in 0..levels {
        text.push(')')?;
    }
    Ok(text)
}
