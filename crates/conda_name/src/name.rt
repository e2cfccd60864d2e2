//! Package names in lower case.

ghost use Rattle.std.specs.Prelude.{◌≡◌, ◌↔◌, IsTrue};
ghost use Rattle.gateway_words.specs.Reading.{Gives};
ghost use Rattle.conda_name.specs.declared.name.NameRefusal.TheVariants.{Memory};

use mp_codec::Text;
use std::alloc::{AllocError, Global};
use std::marker::Model;

/// Why a text is no name, or was not read as one.
#[derive(Clone, Copy, Debug, PartialEq, Eq)]
pub enum NameRefusal {
    /// The text is empty. Its number is 1.
    Empty,
    /// The first byte that is no letter, no digit and none of `_`, `-` and `.`, at its place,
    /// counted in bytes from 0. Its number is 2.
    Char(u64),
    /// Memory ran out.
    Memory,
}

impl NameRefusal {
    ghost use Rattle.conda_name.specs.Name.{name_fault_number};

    /// The number of the fault in print, and none where memory ran out.
    pub fn number(self) -> Option<u8>
        ensures { result ≡ name_fault_number self }
    {
        match self {
            NameRefusal::Empty => Some(1),
            NameRefusal::Char(_) => Some(2),
            NameRefusal::Memory => None,
        }
    }
}

impl From<AllocError> for NameRefusal {
    ghost from_gives = { λ _ refusal. refusal ≡ Memory };

    fn from(_error: AllocError) -> NameRefusal {
        NameRefusal::Memory
    }
}

/// The name of a package: one or more letters, digits, `_`, `-` and `.`, in lower case.
/// (`docs/FORMATS.md`, "Names".)
#[derive(Debug, Drop)]
pub struct Name {
    text: Text,
}

impl Model for Name {
    ghost use Rattle.std.specs.Prelude.{List, ℕ};
    ghost use Rattle.conda_name.specs.Name.{IsName};

    ghost Value = { List ℕ };

    ghost view = { λ name. name.text };

    ghost invariant = { λ name. IsName name.text };
}

impl Name {
    ghost use Rattle.std.specs.Prelude.{IfOk};
    ghost use Rattle.conda_name.specs.Name.{IsName, fault_of, name_of};

    /// The name that a text spells, its letters in lower case.
    ///
    /// `Empty` where there is no byte, else `Char` at the first byte that no name has.
    pub fn read(alloc: Global, text: &str) -> Result<Name, NameRefusal>
        ensures exact { Gives (λ name. name) fault_of result (name_of text.now) }
    {
        if text.is_empty() {
            return Err(NameRefusal::Empty);
        }
        if let Some(at) = first_wrong(text.as_bytes()) {
            return Err(NameRefusal::Char(at as u64));
        }
        let lower = text.to_ascii_lowercase(alloc)?;
        Ok(Name {
            text: Text::copy(alloc, lower.as_str())?,
        })
    }

    /// A copy of the name, in memory of its own.
    pub fn copy(&self, alloc: Global) -> Result<Name, AllocError>
        ensures { IfOk result (λ name. name ≡ self.now) }
    {
        Ok(Name {
            text: Text::copy(alloc, self.as_str())?,
        })
    }

    /// The name as text.
    pub fn as_str(&self) -> &str
        ensures value { result.now ≡ self.now }
        ensures legal { IsName self.now }
    {
        self.text.as_str()
    }
}

ghost use Rattle.conda_name.specs.Name.{first_wrong, is_name_byte, lower_case};

/// Whether a text is a name up to the case of its letters.
pub fn same_name(text: &str, name: &Name) -> bool
    ensures exact { IsTrue result ↔ (lower_case text.now ≡ name.now) }
{
    text.eq_ignore_ascii_case(name.as_str())
}

// Whether a name can have this byte.
pub(crate) fn is_name_byte(byte: u8) -> bool
    ensures { result ≡ is_name_byte byte }
{
    byte.is_ascii_alphanumeric() || matches!(byte, b'_' | b'-' | b'.')
}

// The place of the first byte that no name has.
fn first_wrong(text: &[u8]) -> Option<usize>
    ensures { result ≡ first_wrong text.now }
{
    text.iter().position(|b| !is_name_byte(*b))
}
