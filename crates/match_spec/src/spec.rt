//! A spec: reading it, and which records it matches.

ghost use Rattle.std.specs.Prelude.{◌≡◌, ◌↔◌, IsTrue};

use crate::bracket::{Halves, read_bracket};
use crate::fault::{SpecFault, SpecRefusal};
use crate::outside::read_outside;
use crate::parts::Parts;
use crate::passage::Passage;
use conda_name::{Name, same_name};
use conda_record::RecordView;
use std::alloc::Global;
use std::marker::Model;

/// What is asked of packages: a name, and perhaps a constraint on versions, a build, a build number,
/// a channel, a subdir, digests and a file name. Contracts see its `Meaning`.
/// (`docs/FORMATS.md`, "Specs".)
#[derive(Debug, Drop)]
pub struct Spec {
    name: Name,
    parts: Parts,
}

impl Model for Spec {
    ghost use Rattle.match_spec.specs.Parts.{Meaning};

    ghost Value = { Meaning };

    ghost use Rattle.match_spec.specs.Legal.{IsSpec};

    ghost view = { λ s. record { name = s.name; parts = s.parts } };

    ghost invariant = { λ s. IsSpec (record { name = s.name; parts = s.parts }) };
}

impl Spec {
    ghost use Rattle.gateway_words.specs.Reading.{Gives};
    ghost use Rattle.conda_record.specs.View.{seen};
    ghost use Rattle.match_spec.specs.Matching.{Matches, matches};
    ghost use Rattle.match_spec.specs.Legal.{IsSpec};
    ghost use Rattle.match_spec.specs.Reading.{fault_of, spec_of};

    /// The spec that a text spells.
    ///
    /// A text is read in steps, and the first refusal is answered: `Empty`, `Bracket`, `NoName`,
    /// `Name`, `Build` and `Version` of what stands behind the name, then `Key` and `Value` of the
    /// bracket's parts from left to right.
    pub fn read(alloc: Global, text: &str) -> Result<Spec, SpecRefusal>
        ensures exact { Gives (λ s. s) fault_of result (spec_of text.now) }
    {
        let (name, parts) = read_all(alloc, text.as_bytes())?;
        Ok(Spec { name, parts })
    }

    /// Each part of the spec is of its form (`specs/Legal`). The call does nothing.
    pub fn tell(&self)
        ensures { IsSpec self.now }
    {
        let _ = &self.name;
    }

    /// The name, in lower case.
    pub fn name(&self) -> &Name
        ensures { result.now ≡ self.now.name }
    {
        &self.name
    }

    /// Whether the spec matches the record of a file in a channel's subdir: the record's name, in
    /// lower case, is the spec's, and each part of the spec that is there fits.
    pub fn matches(&self, view: RecordView<'_>, channel: &str, subdir: &str, file: &str) -> bool
        ensures meaning { IsTrue result
            ↔ Matches self.now (seen view.entry) channel.now subdir.now file.now }
        ensures exact { result
            ≡ matches self.now (seen view.entry) channel.now subdir.now file.now }
    {
        self.fits(view, channel, subdir, file)
    }

    // The name, then each part.
    #[tactic(auto, unfolding(crate::specs::Matching::matches))]
    fn fits(&self, view: RecordView<'_>, channel: &str, subdir: &str, file: &str) -> bool
        ensures exact { result
            ≡ matches self.now (seen view.entry) channel.now subdir.now file.now }
        ensures legal { IsSpec self.now }
    {
        same_name(view.name(), &self.name)
            && self.parts.fits_version(view)
            && self.parts.fits_digests(view)
            && self.parts.fits_place(channel, subdir, file)
    }
}

ghost use Rattle.gateway_words.specs.Reading.{Gives};
ghost use Rattle.match_spec.specs.Reading.{fault_of, spec_of, with_bracket};
ghost use Rattle.match_spec.specs.Seen.{passage_there};

// The name and the parts that a text spells.
#[tactic(auto, unfolding(crate::specs::Reading::spec_of))]
fn read_all(alloc: Global, text: &[u8]) -> Result<(Name, Parts), SpecRefusal>
    ensures { Gives (λ r. record { name = r.0; parts = r.1 }) fault_of result (spec_of text.now) }
{
    let p = Passage::of(text).trimmed();
    if p.text.is_empty() {
        return Err(SpecRefusal::Fault(SpecFault::Empty));
    }
    let halves = Halves::of(p)?;
    let (name, outer) = read_outside(alloc, halves.outside)?;
    with_bracket(alloc, halves.inside, name, outer)
}

// The name, and the parts outside the bracket with those of the bracket.
fn with_bracket(
    alloc: Global,
    inside: Option<Passage<'_>>,
    name: Name,
    outer: Parts,
) -> Result<(Name, Parts), SpecRefusal>
    ensures { Gives (λ r. record { name = r.0; parts = r.1 }) fault_of result
        (with_bracket (passage_there inside.entry) (record { name = name; parts = outer })) }
{
    let inner = read_bracket(alloc, inside)?;
    Ok((name, inner.or(outer)))
}
