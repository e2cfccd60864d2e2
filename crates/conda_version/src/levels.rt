//! The groups that are open, one round the other, without memory.

ghost use Rattle.std.specs.Prelude.{◌≡◌, ◌≤◌, ◌<◌, [], ◌∷◌, length};
ghost use Rattle.conda_version.specs.Allowing.{answer_of, close_inner, fresh, groups_behind, on_inner, passes_leaf, with_alternative, with_item};
ghost use Rattle.conda_version.specs.Levels.{HasRoom};
ghost use Rattle.conda_version.specs.Meaning.{seen};
ghost use Rattle.conda_version.specs.Seen.{token_in};

use crate::fault::VersionFault;
use crate::leaf::passes_leaf;
use crate::level::{LEVELS, Level};
use crate::token::Piece;
use crate::version::Version;
use std::marker::Model;

// The groups that are open. Contracts see their list, the innermost first.
#[derive(Drop)]
pub(crate) struct Levels {
    inner: Level,
    outer: [Level; LEVELS],
    depth: usize,
}

impl Model for Levels {
    ghost use Rattle.std.specs.Prelude.{◌≡◌, ◌≤◌, ◌∷◌, List, length};
    ghost use Rattle.conda_version.specs.Allowing.{Group};
    ghost use Rattle.conda_version.specs.Levels.{group_in, stack};
    ghost use Rattle.conda_version.specs.declared.level.TheConstants.{LEVELS};

    ghost Value = { List Group };

    ghost view = { λ s. group_in s.inner ∷ stack s.outer s.depth };

    ghost invariant = { λ s. (s.depth ≤ LEVELS) × (length s.outer ≡ LEVELS) };
}

impl Levels {
    // The whole constraint as one group, in which nothing has been read yet.
    pub(crate) fn new() -> Levels
        ensures { result ≡ fresh ∷ [] }
    {
        let fresh = Level::fresh();
        Levels {
            inner: fresh,
            outer: [fresh; LEVELS],
            depth: 0,
        }
    }

    // Reads a token.
    pub(crate) fn read(&mut self, piece: Piece<'_>, version: Result<Version<'_>, VersionFault>)
        requires { HasRoom (token_in piece) (length self.old) }
        ensures { self.new ≡ groups_behind (seen version.entry) self.old (token_in piece.entry) }
    {
        match piece {
            Piece::Leaf(text) => self.add(passes_leaf(version, text)),
            Piece::Left => self.open(),
            Piece::Right => self.close(),
            Piece::And => {}
            Piece::Or => self.add_alternative(),
        }
    }

    // What the whole constraint says, where no parenthesis is open.
    pub(crate) fn answer(&self) -> bool
        requires { length self.now ≡ 1 }
        ensures { result ≡ answer_of self.now }
    {
        self.inner.answer()
    }

    fn add(&mut self, holds: bool)
        ensures { self.new ≡ on_inner (λ l. with_item l holds) self.old }
    {
        self.inner = self.inner.with_item(holds);
    }

    fn add_alternative(&mut self)
        ensures { self.new ≡ on_inner with_alternative self.old }
    {
        self.inner = self.inner.with_alternative();
    }

    fn open(&mut self)
        requires { length self.old ≤ LEVELS }
        ensures { self.new ≡ fresh ∷ self.old }
    {
        self.outer[self.depth] = self.inner;
        self.depth += 1;
        self.inner = Level::fresh();
    }

    fn close(&mut self)
        requires { 1 < length self.old }
        ensures { self.new ≡ close_inner self.old }
    {
        self.depth -= 1;
        self.inner = self.outer[self.depth].with_item(self.inner.answer());
    }
}
