//! A version in its text: reading it, comparing two, and whether one starts with another.

ghost use Rattle.std.specs.Prelude.{◌≡◌, true};
ghost use Rattle.conda_version.specs.Grammar.{first_wrong, has_underscore, is_narrow, is_wrong};

use crate::fault::VersionFault;
use crate::order::{begins, compare_parts};
use crate::parts::{Cut, epoch_number};
use byte_text::{drop_blanks, or_empty, skip_blanks};
use std::cmp::Ordering;

/// A version, read from a text that lives on: an epoch, a main part and a local part, each part cut
/// into components of runs of digits and of other bytes. (`docs/FORMATS.md`, "Versions".)
#[derive(Clone, Copy)]
pub struct Version<'a> {
    epoch: u128,
    main: &'a [u8],
    // no bytes where there is no local part, since one that is read has some
    local: &'a [u8],
    ghost main_narrow: { is_narrow main.now ≡ true },
    ghost local_narrow: { is_narrow local.now ≡ true },
}

impl<'a> Version<'a> {
    ghost use Rattle.conda_version.specs.Meaning.{meaning, parts_in, seen};
    ghost use Rattle.conda_version.specs.Order.{version_cmp, version_starts_with};
    ghost use Rattle.conda_version.specs.Grammar.{version_of, version_of_parts};

    /// The version that a text spells, without the blanks at its ends.
    ///
    /// The faults are tested in this order: `Empty`, `Char`, `Twice`, `Epoch`, `EmptyPart`, `Wide`.
    pub fn read(text: &'a str) -> Result<Version<'a>, VersionFault>
        ensures exact { seen result ≡ version_of text.now }
    {
        Version::read_bytes(text.as_bytes())
    }

    /// The order of two versions: by epoch, then by main components, then by local ones. What one
    /// of them lacks counts as 0.
    #[tactic(auto, unfolding(crate::specs::Meaning::meaning, crate::specs::Order::version_cmp))]
    pub fn compare(self, other: Version<'_>) -> Ordering
        ensures exact { result ≡ version_cmp (meaning self.entry) (meaning other.entry) }
    {
        let order = self.epoch.cmp(&other.epoch);
        if order != Ordering::Equal {
            return order;
        }
        let order = compare_parts(self.main, other.main);
        if order != Ordering::Equal {
            return order;
        }
        compare_parts(self.local, other.local)
    }

    /// Whether this version starts with another: all runs of `p` but the last equal those of this
    /// version, and the last is equal, or a prefix where both are words other than `dev` and
    /// `post`.
    #[tactic(auto, unfolding(crate::specs::Meaning::meaning, crate::specs::Order::version_starts_with))]
    pub fn starts_with(self, p: Version<'_>) -> bool
        ensures exact { result ≡ version_starts_with (meaning self.entry) (meaning p.entry) }
    {
        if self.epoch != p.epoch {
            return false;
        }
        if p.local.is_empty() {
            return begins(self.main, p.main);
        }
        compare_parts(self.main, p.main) == Ordering::Equal && begins(self.local, p.local)
    }

    // The version that some bytes spell.
    #[tactic(auto, unfolding(crate::specs::Grammar::version_of))]
    pub(crate) fn read_bytes(text: &'a [u8]) -> Result<Version<'a>, VersionFault>
        ensures { seen result ≡ version_of text.now }
    {
        let front = skip_blanks(text);
        let trimmed = drop_blanks(front);
        if trimmed.is_empty() {
            return Err(VersionFault::Empty);
        }
        if let Some(at) = first_wrong(trimmed) {
            return Err(VersionFault::Char((text.len() - front.len() + at) as u64));
        }
        Version::of_parts(trimmed, Cut::of(trimmed))
    }

    // The version that the parts of a text spell, or the first fault that applies to them.
    #[tactic(auto, unfolding(crate::specs::Meaning::meaning))]
    fn of_parts(text: &[u8], cut: Cut<'a>) -> Result<Version<'a>, VersionFault>
        ensures { seen result ≡ version_of_parts text.now (parts_in cut.entry) }
    {
        if cut.is_twice(text) {
            return Err(VersionFault::Twice);
        }
        if cut.has_bad_epoch() {
            return Err(VersionFault::Epoch);
        }
        if cut.has_empty_part() {
            return Err(VersionFault::EmptyPart);
        }
        if cut.is_wide() {
            return Err(VersionFault::Wide);
        }
        Ok(Version {
            epoch: epoch_number(cut.epoch),
            main: cut.main,
            local: or_empty(cut.local),
        })
    }
}

// Whether a version can't have this byte.
fn is_wrong(with_underscore: bool, byte: u8) -> bool
    ensures { result ≡ is_wrong with_underscore byte }
{
    match byte {
        b'.' | b'_' | b'+' | b'!' => false,
        b'-' => with_underscore,
        _ => !byte.is_ascii_alphanumeric(),
    }
}

fn has_underscore(text: &[u8]) -> bool
    ensures { result ≡ has_underscore text.now }
{
    text.iter().any(|b| *b == b'_')
}

// The place of the first byte that a version can't have.
fn first_wrong(text: &[u8]) -> Option<usize>
    ensures { result ≡ first_wrong text.now }
{
    let with_underscore = has_underscore(text);
    text.iter().position(|b| is_wrong(with_underscore, *b))
}
