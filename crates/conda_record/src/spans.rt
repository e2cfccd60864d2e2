//! A record as places in the bytes that spell it.

ghost use Rattle.std.specs.Prelude.{◌≡◌, List, ℕ, option_map};
ghost use Rattle.conda_record.specs.Places.{span_of, ends_of};

use mp_codec::Span;
use std::marker::Model;

/// Where the texts of a record and those of its digests stand in the bytes that spell it, with its
/// numbers. Contracts see its `Places` (`specs/Places`).
#[derive(Debug, Drop)]
pub struct RecordSpans {
    pub(crate) name: Span,
    pub(crate) version: Span,
    pub(crate) build: Span,
    pub(crate) build_number: u64,
    pub(crate) depends: Vec<Span>,
    pub(crate) constrains: Vec<Span>,
    pub(crate) subdir: Option<Span>,
    pub(crate) md5: Option<Span>,
    pub(crate) sha256: Option<Span>,
    pub(crate) size: Option<u64>,
    pub(crate) timestamp: Option<u64>,
    pub(crate) license: Option<Span>,
    pub(crate) noarch: Option<Span>,
}

impl Model for RecordSpans {
    ghost use Rattle.conda_record.specs.Places.{Places};

    ghost Value = { Places };

    ghost view = { λ r. record {
      name = r.name;
      version = r.version;
      build = r.build;
      build_number = r.build_number;
      depends = r.depends.items;
      constrains = r.constrains.items;
      subdir = r.subdir;
      md5 = r.md5;
      sha256 = r.sha256;
      size = r.size;
      timestamp = r.timestamp;
      license = r.license;
      noarch = r.noarch;
    } };
}

/// A field of a record that is text.
#[derive(Clone, Copy, Debug, PartialEq, Eq)]
pub enum Field {
    /// The name of the package.
    Name,
    /// The text of the version.
    Version,
    /// The build string.
    Build,
    /// The platform folder.
    Subdir,
    /// The license.
    License,
    /// The kind of a package that serves every platform.
    Noarch,
    /// The text of `depends` at this place, counted from 0.
    Depend(usize),
    /// The text of `constrains` at this place, counted from 0.
    Constrain(usize),
}

impl RecordSpans {
    /// Where the text of a field stands: its first place and the place behind its last one, counted
    /// from the start of the bytes in which the record was read. None where the record has no such
    /// field, or where the place in a list is not below its length.
    pub fn span(&self, field: Field) -> Option<(usize, usize)>
        ensures { result ≡ option_map ends_of (span_of field self.now) }
    {
        let span = self.span_of(field)?;
        Some((span.start, span.end))
    }

    // The span of a field.
    fn span_of(&self, field: Field) -> Option<Span>
        ensures { result ≡ span_of field self.now }
    {
        match field {
            Field::Name => Some(self.name),
            Field::Version => Some(self.version),
            Field::Build => Some(self.build),
            Field::Subdir => self.subdir,
            Field::License => self.license,
            Field::Noarch => self.noarch,
            Field::Depend(i) => self.depends.get(i).copied(),
            Field::Constrain(i) => self.constrains.get(i).copied(),
        }
    }
}
