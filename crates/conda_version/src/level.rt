//! The groups of a constraint that are open, and what they have said so far.

ghost use Rattle.std.specs.Prelude.{◌≡◌};

/// How many levels of parentheses a constraint may have.
pub const LEVELS: usize = 64;

// A group that is open: whether an alternative before this one holds, and whether all items of this
// one have so far.
#[derive(Clone, Copy)]
pub(crate) struct Level {
    held: bool,
    all: bool,
}

impl Level {
    ghost use Rattle.conda_version.specs.Allowing.{answer, fresh, with_alternative, with_item};
    ghost use Rattle.conda_version.specs.Levels.{group_in};

    // A group in which nothing has been read yet.
    pub(crate) fn fresh() -> Level
        ensures { group_in result ≡ fresh }
    {
        Level {
            held: false,
            all: true,
        }
    }

    // The group with one item more.
    pub(crate) fn with_item(self, holds: bool) -> Level
        ensures { group_in result ≡ with_item (group_in self) holds }
    {
        Level {
            held: self.held,
            all: self.all && holds,
        }
    }

    // The group with one alternative more.
    pub(crate) fn with_alternative(self) -> Level
        ensures { group_in result ≡ with_alternative (group_in self) }
    {
        Level {
            held: self.answer(),
            all: true,
        }
    }

    // What the group says at its end.
    pub(crate) fn answer(self) -> bool
        ensures { result ≡ answer (group_in self) }
    {
        self.held || self.all
    }
}
