//! A leaf of a constraint: how it is read, and which versions pass it.

ghost use Rattle.std.specs.Prelude.{◌≡◌, ◌+◌, ◌<◌, ◌≤◌, ◌^◌, ◌&&◌, IfErr, IfSome, length, not};
ghost use Rattle.conda_version.specs.Leaf.{ends_in_star, inner_star, strip_end, version_text};
ghost use Rattle.byte_text.specs.Text.{before_last, text_of};
ghost use Rattle.gateway_words.specs.Ascii.{dot};

use crate::fault::{ConstraintFault, VersionFault};
use crate::operator::{Operator, Relation, operator_of};
use crate::version::Version;
use byte_text::{before_last, drop_blanks, find, sign_len, skip_blanks};

// What a leaf tests of a version: nothing, its relation to another one, or both halves of `~=`.
#[derive(Clone, Copy)]
pub(crate) enum LeafTest<'a> {
    Always,
    Compare(Relation, Version<'a>),
    Compatible(Version<'a>, Version<'a>),
}

impl<'a> LeafTest<'a> {
    ghost use Rattle.conda_version.specs.Constraint.{place_of};
    ghost use Rattle.conda_version.specs.Leaf.{body_of, compatible_of, leaf_of, operand_of, passes, read_there, relates, versioned};
    ghost use Rattle.conda_version.specs.Grammar.{version_of};
    ghost use Rattle.conda_version.specs.Meaning.{meaning, seen};
    ghost use Rattle.conda_version.specs.Order.{version_cmp, version_starts_with};
    ghost use Rattle.conda_version.specs.Seen.{operator_in, relation_in, test_in, test_read};
    ghost use Rattle.std.specs.Ordering.{is_lt};

    // What a leaf tests, or its fault, at a place that is counted from the leaf's first byte.
    #[tactic(auto, unfolding(crate::specs::Leaf::leaf_of))]
    pub(crate) fn read(text: &'a [u8]) -> Result<LeafTest<'a>, ConstraintFault>
        ensures value { test_read result ≡ leaf_of text.now }
        ensures within { IfErr result (λ f. place_of f ≤ length text.now) }
    {
        let (signs, behind) = text.split_at(sign_len(text));
        let Some(operator) = operator_of(signs) else {
            return Err(ConstraintFault::Operator(0));
        };
        let front = skip_blanks(behind);
        LeafTest::operand(operator, text.len() - front.len(), front)
    }

    // The test of an operator and the text behind it, which begins at this place.
    fn operand(
        operator: Operator,
        at: usize,
        text: &'a [u8],
    ) -> Result<LeafTest<'a>, ConstraintFault>
        requires { at + length text.now < 2 ^ 64 }
        ensures value { test_read result ≡ operand_of (operator_in operator) at text.now }
        ensures within { IfErr result (λ f. place_of f ≤ at + length text.now) }
    {
        let body = drop_blanks(text);
        match inner_star(body) {
            Some(star) => Err(ConstraintFault::Star((at + star) as u64)),
            None => LeafTest::body(operator, at, body),
        }
    }

    // The test of an operator and the text behind it, without blanks at its ends, in which each `*`
    // stands at the end.
    fn body(operator: Operator, at: usize, body: &'a [u8]) -> Result<LeafTest<'a>, ConstraintFault>
        requires { at + length body.now < 2 ^ 64 }
        ensures value { test_read result ≡ body_of (operator_in operator) at body.now }
        ensures within { IfErr result (λ f. place_of f ≤ at + length body.now) }
    {
        if body == b"*".as_slice() {
            return if operator.takes_star() {
                Ok(LeafTest::Always)
            } else {
                Err(ConstraintFault::Star(at as u64))
            };
        }
        let star = ends_in_star(body);
        if star && operator.is_compatible() {
            return Err(ConstraintFault::Star((at + (body.len() - 1)) as u64));
        }
        LeafTest::versioned(operator, star, at, version_text(body))
    }

    // The test of an operator, a version's text, and whether a star stands behind it.
    fn versioned(
        operator: Operator,
        star: bool,
        at: usize,
        text: &'a [u8],
    ) -> Result<LeafTest<'a>, ConstraintFault>
        ensures value { test_read result
            ≡ versioned (operator_in operator) star at text.now (version_of text.now) }
        ensures within { IfErr result (λ f. place_of f ≡ at) }
    {
        let Ok(version) = Version::read_bytes(text) else {
            return Err(ConstraintFault::Version(at as u64));
        };
        if operator.is_compatible() {
            return LeafTest::compatible(at, version, text);
        }
        Ok(LeafTest::Compare(operator.relation(star), version))
    }

    // The test of `~=`: a version, and what is read of its text before the last `.`.
    fn compatible(
        at: usize,
        version: Version<'a>,
        text: &'a [u8],
    ) -> Result<LeafTest<'a>, ConstraintFault>
        ensures value { test_read result
            ≡ compatible_of at (meaning version.entry) (read_there (before_last dot text.now)) }
        ensures within { IfErr result (λ f. place_of f ≡ at) }
    {
        let Some(front) = before_last(b'.', text) else {
            return Err(ConstraintFault::Version(at as u64));
        };
        match Version::read_bytes(front) {
            Ok(front) => Ok(LeafTest::Compatible(version, front)),
            Err(_) => Err(ConstraintFault::Version(at as u64)),
        }
    }

    // Whether a version passes the test; a text without a reading, `None`, passes `Always` alone.
    pub(crate) fn passes(self, version: Result<Version<'_>, VersionFault>) -> bool
        ensures { result ≡ passes (seen version.entry) (test_in self.entry) }
    {
        match self {
            LeafTest::Always => true,
            LeafTest::Compare(relation, other) => match version {
                Ok(version) => LeafTest::relates(relation, version, other),
                Err(_) => false,
            },
            LeafTest::Compatible(other, front) => match version {
                Ok(version) => LeafTest::is_compatible(version, other, front),
                Err(_) => false,
            },
        }
    }

    // Whether a version is at least another one, and starts with the front of that.
    fn is_compatible(version: Version<'_>, other: Version<'_>, front: Version<'_>) -> bool
        ensures { result ≡ (not (is_lt (version_cmp (meaning version.entry) (meaning other.entry)))
            && version_starts_with (meaning version.entry) (meaning front.entry)) }
    {
        !version.compare(other).is_lt() && version.starts_with(front)
    }

    // Whether a version stands in the relation to another one.
    fn relates(relation: Relation, version: Version<'_>, other: Version<'_>) -> bool
        ensures { result
            ≡ relates (relation_in relation) (meaning version.entry) (meaning other.entry) }
    {
        match relation {
            Relation::Equal => version.compare(other).is_eq(),
            Relation::NotEqual => !version.compare(other).is_eq(),
            Relation::StartsWith => version.starts_with(other),
            Relation::StartsOtherwise => !version.starts_with(other),
            Relation::Less => version.compare(other).is_lt(),
            Relation::AtMost => !version.compare(other).is_gt(),
            Relation::Greater => version.compare(other).is_gt(),
            Relation::AtLeast => !version.compare(other).is_lt(),
        }
    }
}

// The place of the first `*` behind which something stands.
fn inner_star(body: &[u8]) -> Option<usize>
    ensures value { result ≡ inner_star body.now }
    ensures within { IfSome result (λ at. at < length body.now) }
{
    match body {
        [front @ .., _] => find(b'*', front),
        [] => None,
    }
}

fn ends_in_star(body: &[u8]) -> bool
    ensures value { result ≡ ends_in_star body.now }
{
    match body {
        [.., last] => *last == b'*',
        [] => false,
    }
}

// The text of the version: without a `*` or `.*` at its end, and without blanks before that.
fn version_text(body: &[u8]) -> &[u8]
    ensures { result.now ≡ version_text body.now }
{
    match body {
        [front @ .., b'*'] => drop_blanks(without_dot(front)),
        _ => body,
    }
}

// The text without a `.` at its end.
fn without_dot(text: &[u8]) -> &[u8]
    ensures { result.now ≡ strip_end dot text.now }
{
    match text {
        [front @ .., b'.'] => front,
        _ => text,
    }
}

ghost use Rattle.conda_version.specs.Allowing.{passes_leaf};
ghost use Rattle.conda_version.specs.Meaning.{seen};

// Whether a version passes a leaf, which none does where the leaf has no reading.
pub(crate) fn passes_leaf(version: Result<Version<'_>, VersionFault>, text: &[u8]) -> bool
    ensures { result ≡ passes_leaf (seen version.entry) text.now }
{
    match LeafTest::read(text) {
        Ok(test) => test.passes(version),
        Err(_) => false,
    }
}
