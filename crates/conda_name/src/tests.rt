//! The worked rows of names (docs/FORMATS.md, "Names"), each public call among them.

use super::*;
use std::test::*;

// A text, and the name that it is read as.
const NAMES: [(&str, &str); 5] = [
    ("a", "a"),
    ("A.b", "a.b"),
    ("Foo-Bar_1.2", "foo-bar_1.2"),
    ("_", "_"),
    ("-.", "-."),
];

const REFUSED: [(&str, NameRefusal); 6] = [
    ("", NameRefusal::Empty),
    ("a b", NameRefusal::Char(1)),
    (" a", NameRefusal::Char(0)),
    ("a/b", NameRefusal::Char(1)),
    ("a\u{e9}", NameRefusal::Char(1)),
    ("abc::d", NameRefusal::Char(3)),
];

// A text, a name, and whether they are the same.
const SAME: [(&str, &str, bool); 5] = [
    ("python", "python", true),
    ("PyThon", "python", true),
    ("python ", "python", false),
    ("pythons", "python", false),
    ("", "python", false),
];

// A `depends` text, and the name that it is about.
const DEPENDENCIES: [(&str, Option<&str>); 15] = [
    ("conda-forge::python >=3.12", Some("python")),
    (">=3", None),
    ("python", Some("python")),
    ("python=3", Some("python")),
    ("python[version=3]", Some("python")),
    ("  Python 3", Some("Python")),
    ("a:: b", Some("b")),
    ("a::b::C 1", Some("C")),
    ("a:::b", Some("b")),
    ("a:b", Some("a")),
    ("a::", None),
    ("", None),
    ("  ", None),
    ("\tpython", None),
    ("lib\u{e9}", Some("lib")),
];

#[test]
fn reads_names_in_lower_case(rt: HostRuntime) -> Result<(), Fail> {
    for (text, want) in NAMES {
        let name = Name::read(rt.alloc(), text)
            .ok()
            .ok_or("a name was refused")?;
        assert!(rt; name.as_str() == want, "{text}");
    }
    Ok(())
}

#[test]
fn refuses_what_is_no_name(rt: HostRuntime) {
    for (text, refusal) in REFUSED {
        assert!(rt;
            Name::read(rt.alloc(), text).err() == Some(refusal),
            "{text}"
        );
    }
}

#[test]
fn case_makes_no_other_name(rt: HostRuntime) -> Result<(), Fail> {
    for (text, name, same) in SAME {
        let name = Name::read(rt.alloc(), name)
            .ok()
            .ok_or("a name was refused")?;
        assert!(rt; same_name(text, &name) == same, "{text}");
    }
    Ok(())
}

#[test]
fn finds_the_name_of_a_dependency(rt: HostRuntime) {
    for (text, name) in DEPENDENCIES {
        assert!(rt; dependency_name(text) == name, "{text}");
    }
}
