//! Text that is owned.

ghost use Rattle.std.specs.Prelude.{◌≡◌, ◌≤◌, length, IfOk};

use std::alloc::{AllocError, Global};
use std::marker::Model;

// The most bytes of a text that lies in the value itself.
const SHORT: usize = 30;

/// Text of its own. Contracts see its bytes.
#[derive(Debug, Drop)]
pub struct Text {
    held: Held,
}

impl Model for Text {
    ghost use Rattle.std.specs.Prelude.{List, ℕ};
    ghost use Rattle.mp_codec.specs.Held.{held_bytes};

    ghost Value = { List ℕ };

    ghost view = { λ text. held_bytes text.held };
}

// Short text in the value itself, or text in memory of its own.
#[derive(Debug, Drop)]
enum Held {
    Short(Short),
    Long(String),
}

// Text of at most `SHORT` bytes. Contracts see its bytes.
#[derive(Debug, Drop)]
struct Short {
    bytes: [u8; SHORT],
    len: u8,
}

impl Model for Short {
    ghost use Rattle.std.specs.Prelude.{List, ℕ, ◌≤◌, take, IsUtf8};

    ghost Value = { List ℕ };

    ghost view = { λ text. take text.len text.bytes };

    ghost invariant = { λ text. (text.len ≤ 30) × ∥ IsUtf8 (take text.len text.bytes) ∥₁ };
}

impl Short {
    // A copy of a short text.
    fn copy(s: &str) -> Short
        requires { length s.now ≤ 30 }
        ensures { result ≡ s.now }
    {
        let mut bytes = [0; SHORT];
        bytes[..s.len()].copy_from_slice(s.as_bytes());
        Short {
            bytes,
            len: s.len() as u8,
        }
    }

    // The text.
    fn as_str(&self) -> &str
        ensures { result.now ≡ self.now }
    {
        unsafe { std::str::from_utf8_unchecked(&self.bytes[..self.len as usize]) }
    }
}

impl Text {
    /// A copy of a text.
    pub fn copy(alloc: Global, s: &str) -> Result<Text, AllocError>
        ensures { IfOk result (λ text. text ≡ s.now) }
    {
        let held = if s.len() <= SHORT {
            Held::Short(Short::copy(s))
        } else {
            Held::Long(String::from_str(alloc, s)?)
        };
        Ok(Text { held })
    }

    /// The text, without a copy.
    pub fn as_str(&self) -> &str
        ensures { result.now ≡ self.now }
    {
        match &self.held {
            Held::Short(text) => text.as_str(),
            Held::Long(text) => text.as_str(),
        }
    }
}
