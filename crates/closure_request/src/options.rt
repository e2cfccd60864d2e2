//! Options of a request.

ghost use Rattle.std.specs.Prelude.{◌≡◌};
ghost use Rattle.closure_request.specs.Options.{format_of, priority_of};

/// Which files of a package are asked for.
#[derive(Clone, Copy, Debug, PartialEq, Eq)]
pub enum Format {
    /// A file of `packages` is left out where the same package stands in `packages.conda`. Its word
    /// is `prefer-conda`.
    PreferConda,
    /// Every file. Its word is `all`.
    All,
}

impl Format {
    /// The format of a word, or None where it is the word of none.
    pub fn of(word: &str) -> Option<Format>
        ensures { result ≡ format_of word.now }
    {
        match word {
            "prefer-conda" => Some(Format::PreferConda),
            "all" => Some(Format::All),
            _ => None,
        }
    }
}

/// From which channels a name is taken.
#[derive(Clone, Copy, Debug, PartialEq, Eq)]
pub enum Priority {
    /// From each channel that lists it. Its word is `flexible`.
    Flexible,
    /// From the first channel that lists it in any of its subdirs. Its word is `strict`.
    Strict,
}

impl Priority {
    /// The priority of a word, or None where it is the word of none.
    pub fn of(word: &str) -> Option<Priority>
        ensures { result ≡ priority_of word.now }
    {
        match word {
            "flexible" => Some(Priority::Flexible),
            "strict" => Some(Priority::Strict),
            _ => None,
        }
    }
}
