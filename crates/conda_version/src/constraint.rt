//! A constraint on versions: reading it, and which versions it allows.

ghost use Rattle.std.specs.Prelude.{◌≡◌, ◌↔◌, IfErr, IfOk, IfSome, IsTrue, Ok, None};
ghost use Rattle.gateway_words.specs.Reading.{Gives};
ghost use Rattle.conda_version.specs.Allowing.{allowed_by, allows};
ghost use Rattle.conda_version.specs.Constraint.{IsFirstFault, constraint_fault, constraint_of, fault_of};
ghost use Rattle.conda_version.specs.Grammar.{version_of};
ghost use Rattle.conda_version.specs.Meaning.{seen};
ghost use Rattle.conda_version.specs.Tree.{Allows, Any, HasTree, IsTreeOf, any_holds};
ghost use Rattle.conda_version.specs.Version.{Value};

use crate::fault::{ConstraintRefusal, VersionFault};
use crate::levels::Levels;
use crate::scan::first_fault;
use crate::token::Found;
use crate::version::Version;
use std::alloc::Global;
use std::marker::Model;

/// A constraint on versions: comparisons joined by `,` for and, `|` for or, and parentheses.
/// Contracts see its text, in which no fault stands. (`docs/FORMATS.md`, "Constraints".)
#[derive(Debug, Drop)]
pub struct Constraint {
    text: String,
}

impl Model for Constraint {
    ghost use Rattle.std.specs.Prelude.{◌≡◌, List, None, ℕ};
    ghost use Rattle.conda_version.specs.Constraint.{constraint_fault};
    ghost use Rattle.std.specs.String.{string_bytes};

    ghost Value = { List ℕ };

    ghost view = { λ c. string_bytes c.text };

    ghost invariant = { λ c. constraint_fault (string_bytes c.text) ≡ None };
}

impl Constraint {
    /// The constraint that a text spells: a tree of the grammar whose leaves have a reading, with
    /// at most `LEVELS` levels of parentheses.
    ///
    /// Of the faults that stand in a text the one with the least place is answered, and at one
    /// place the one with the lower number.
    pub fn read(alloc: Global, text: &str) -> Result<Constraint, ConstraintRefusal>
        ensures found { IfOk result (λ c. (c ≡ text.now) × HasTree text.now) }
        ensures only { HasTree text.now → Gives (λ c. c) fault_of result (Ok text.now) }
        ensures fault { IfErr result (λ e. IfSome (fault_of e) (IsFirstFault text.now)) }
        ensures exact { Gives (λ c. c) fault_of result (constraint_of text.now) }
    {
        if let Some(fault) = first_fault(text.as_bytes()) {
            return Err(ConstraintRefusal::Fault(fault));
        }
        Ok(Constraint {
            text: String::from_str(alloc, text)?,
        })
    }

    /// Whether the constraint allows a version: whether the tree that it spells says so. A text
    /// that is no version is allowed by `*`, `=*` and `==*` alone.
    pub fn allows(&self, version: &str) -> bool
        ensures meaning { IsTrue result ↔ Allows self.now version.now }
        ensures tree { (tree : Any) → IsTreeOf self.now tree
            → result ≡ any_holds (version_of version.now) tree }
        ensures exact { result ≡ allows self.now version.now }
    {
        allows_read(self.text.as_bytes(), Version::read(version))
    }
}

// Whether a constraint's text allows what a version's text reads as.
fn allows_read(text: &[u8], version: Result<Version<'_>, VersionFault>) -> bool
    requires { constraint_fault text.now ≡ None }
    ensures { result ≡ allowed_by (seen version.entry) text.now }
{
    let mut levels = Levels::new();
    let mut at = 0;
    let mut rest = text;
    'tokens: while let Some(found) = Found::next(at, rest) {
        levels.read(found.piece, version);
        at = found.behind;
        rest = found.rest;
    }
    levels.answer()
}
