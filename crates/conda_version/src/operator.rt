//! The operators of a leaf, and the relations that they stand for.

ghost use Rattle.std.specs.Prelude.{◌≡◌, ◌≤◌, length};
ghost use Rattle.conda_version.specs.Leaf.{operator_of};
ghost use Rattle.byte_text.specs.Text.{is_sign, sign_len};
ghost use Rattle.conda_version.specs.Seen.{operator_seen};

/// What stands before the version of a leaf.
#[derive(Clone, Copy)]
pub(crate) enum Operator {
    /// Nothing.
    Bare,
    /// `=`
    Equal,
    /// `==`
    Exact,
    /// `!=`
    NotEqual,
    /// `<`
    Less,
    /// `<=`
    AtMost,
    /// `>`
    Greater,
    /// `>=`
    AtLeast,
    /// `~=`
    Compatible,
}

/// How a version has to stand to the one of a leaf.
#[derive(Clone, Copy)]
pub(crate) enum Relation {
    /// It equals that one.
    Equal,
    /// It doesn't equal that one.
    NotEqual,
    /// It starts with that one.
    StartsWith,
    /// It doesn't start with that one.
    StartsOtherwise,
    /// It is below that one.
    Less,
    /// It is that one or below it.
    AtMost,
    /// It is above that one.
    Greater,
    /// It is that one or above it.
    AtLeast,
}

// The operator that a run of signs is, if it is one.
pub(crate) fn operator_of(run: &[u8]) -> Option<Operator>
    ensures { operator_seen result ≡ operator_of run.now }
{
    match run {
        b"" => Some(Operator::Bare),
        b"=" => Some(Operator::Equal),
        b"==" => Some(Operator::Exact),
        b"!=" => Some(Operator::NotEqual),
        b"<" => Some(Operator::Less),
        b"<=" => Some(Operator::AtMost),
        b">" => Some(Operator::Greater),
        b">=" => Some(Operator::AtLeast),
        b"~=" => Some(Operator::Compatible),
        _ => None,
    }
}

impl Operator {
    ghost use Rattle.conda_version.specs.Leaf.{is_compatible, relation_of, takes_star};
    ghost use Rattle.conda_version.specs.Seen.{operator_in, relation_in};

    // Whether `*` alone may stand behind the operator.
    pub(crate) fn takes_star(self) -> bool
        ensures { result ≡ takes_star (operator_in self) }
    {
        match self {
            Operator::Bare | Operator::Equal | Operator::Exact => true,
            Operator::NotEqual
            | Operator::Less
            | Operator::AtMost
            | Operator::Greater
            | Operator::AtLeast
            | Operator::Compatible => false,
        }
    }

    // Whether the operator is `~=`.
    pub(crate) fn is_compatible(self) -> bool
        ensures { result ≡ is_compatible (operator_in self) }
    {
        matches!(self, Operator::Compatible)
    }

    // What the operator asks for, with a star behind its version or without.
    pub(crate) fn relation(self, star: bool) -> Relation
        ensures { relation_in result ≡ relation_of (operator_in self) star }
    {
        match self {
            Operator::Bare if star => Relation::StartsWith,
            Operator::Bare => Relation::Equal,
            Operator::Equal => Relation::StartsWith,
            Operator::Exact => Relation::Equal,
            Operator::NotEqual if star => Relation::StartsOtherwise,
            Operator::NotEqual => Relation::NotEqual,
            Operator::Less => Relation::Less,
            Operator::AtMost => Relation::AtMost,
            Operator::Greater => Relation::Greater,
            Operator::AtLeast => Relation::AtLeast,
            Operator::Compatible => Relation::AtLeast,
        }
    }
}
