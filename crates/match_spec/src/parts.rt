//! The parts of a spec beside its name.

ghost use Rattle.std.specs.Prelude.{◌≡◌};

use crate::build::{fits_build, is_build};
use crate::fault::{SpecFault, SpecRefusal};
use crate::key::Key;
use crate::number::NumberTest;
use crate::passage::Passage;
use crate::text::Bytes;
use crate::version::read_constraint;
use conda_record::RecordView;
use conda_version::Constraint;
use hex::FromHex;
use std::alloc::Global;
use std::marker::Model;

// What is answered for a constraint and for a build that are refused.
#[derive(Clone, Copy)]
pub(crate) struct Faults {
    pub(crate) version: SpecFault,
    pub(crate) build: SpecFault,
}

// What a spec asks for beside the name, part by part. Contracts see the parts.
#[derive(Debug, Drop)]
pub(crate) struct Parts {
    version: Option<Constraint>,
    build: Option<Bytes>,
    build_number: Option<NumberTest>,
    channel: Option<Bytes>,
    subdir: Option<Bytes>,
    md5: Option<[u8; 16]>,
    sha256: Option<[u8; 32]>,
    file: Option<Bytes>,
}

impl Model for Parts {
    ghost use Rattle.match_spec.specs.Parts.{Parts};

    ghost Value = { Parts };

    ghost use Rattle.match_spec.specs.Seen.{test_there};

    ghost view = { λ p. record {
      version = p.version;
      build = p.build;
      build_number = test_there p.build_number;
      channel = p.channel;
      subdir = p.subdir;
      md5 = p.md5;
      sha256 = p.sha256;
      file = p.file;
    } };
}

impl Parts {
    ghost use Rattle.std.specs.Prelude.{Some};
    ghost use Rattle.gateway_words.specs.Reading.{Gives};
    ghost use Rattle.conda_record.specs.View.{seen};
    ghost use Rattle.match_spec.specs.Matching.{fits_digests, fits_place, fits_version};
    ghost use Rattle.match_spec.specs.Parts.{no_parts, replaced};
    ghost use Rattle.match_spec.specs.Seen.{key_in, passage_in};
    ghost use Rattle.match_spec.specs.Reading.{fault_of, has, with_both, with_build, with_value, with_version};

    // No parts.
    pub(crate) fn new() -> Parts
        ensures { result ≡ no_parts }
    {
        Parts {
            version: None,
            build: None,
            build_number: None,
            channel: None,
            subdir: None,
            md5: None,
            sha256: None,
            file: None,
        }
    }

    // These parts, and of others those that are missing here.
    pub(crate) fn or(self, outer: Parts) -> Parts
        ensures { result ≡ replaced self outer }
    {
        Parts {
            version: self.version.or(outer.version),
            build: self.build.or(outer.build),
            build_number: self.build_number.or(outer.build_number),
            channel: self.channel.or(outer.channel),
            subdir: self.subdir.or(outer.subdir),
            md5: self.md5.or(outer.md5),
            sha256: self.sha256.or(outer.sha256),
            file: self.file.or(outer.file),
        }
    }

    // Whether the part of a key is there.
    pub(crate) fn has(&self, key: Key) -> bool
        ensures { result ≡ has (key_in key) self.now }
    {
        match key {
            Key::Version => self.version.is_some(),
            Key::Build => self.build.is_some(),
            Key::BuildNumber => self.build_number.is_some(),
            Key::Channel => self.channel.is_some(),
            Key::Subdir => self.subdir.is_some(),
            Key::Md5 => self.md5.is_some(),
            Key::Sha256 => self.sha256.is_some(),
            Key::File => self.file.is_some(),
        }
    }

    // Takes the channel.
    pub(crate) fn put_channel(&mut self, alloc: Global, text: &[u8]) -> Result<(), SpecRefusal>
        ensures { Gives (λ _. self.new) fault_of result
            (Ok (record self.old { channel = Some text.now })) }
    {
        self.channel = Some(Bytes::copy(alloc, text)?);
        Ok(())
    }

    // Takes the subdir.
    pub(crate) fn put_subdir(&mut self, alloc: Global, text: &[u8]) -> Result<(), SpecRefusal>
        ensures { Gives (λ _. self.new) fault_of result
            (Ok (record self.old { subdir = Some text.now })) }
    {
        self.subdir = Some(Bytes::copy(alloc, text)?);
        Ok(())
    }

    // Reads the constraint, or answers this fault.
    pub(crate) fn put_version(
        &mut self,
        alloc: Global,
        text: &[u8],
        fault: SpecFault,
    ) -> Result<(), SpecRefusal>
        ensures { Gives (λ _. self.new) fault_of result (with_version self.old fault text.now) }
    {
        self.version = Some(read_constraint(alloc, text, fault)?);
        Ok(())
    }

    // Reads the build, or answers this fault.
    pub(crate) fn put_build(
        &mut self,
        alloc: Global,
        text: &[u8],
        fault: SpecFault,
    ) -> Result<(), SpecRefusal>
        ensures { Gives (λ _. self.new) fault_of result (with_build fault text.now self.old) }
    {
        self.build = Some(read_build(alloc, text, fault)?);
        Ok(())
    }

    // Reads the constraint and the build, or answers the fault of the one that is refused.
    pub(crate) fn put_both(
        &mut self,
        alloc: Global,
        version: &[u8],
        build: &[u8],
        faults: Faults,
    ) -> Result<(), SpecRefusal>
        ensures { Gives (λ _. self.new) fault_of result
            (with_both self.old faults.version version.now faults.build build.now) }
    {
        self.put_version(alloc, version, faults.version)?;
        self.put_build(alloc, build, faults.build)
    }

    // Reads the value of a key.
    #[tactic(auto, unfolding(crate::specs::Reading::with_value))]
    pub(crate) fn read_value(
        &mut self,
        alloc: Global,
        key: Key,
        value: Passage<'_>,
    ) -> Result<(), SpecRefusal>
        ensures { Gives (λ _. self.new) fault_of result
            (with_value (key_in key) (passage_in value.entry) self.old) }
    {
        let text = value.text;
        let fault = SpecFault::Value(value.at as u64);
        match key {
            Key::Version => self.version = Some(read_constraint(alloc, text, fault)?),
            Key::Build => self.build = Some(read_build(alloc, text, fault)?),
            Key::BuildNumber => self.build_number = Some(read_number(text, fault)?),
            Key::Channel => self.channel = Some(read_text(alloc, text, fault)?),
            Key::Subdir => self.subdir = Some(read_text(alloc, text, fault)?),
            Key::Md5 => self.md5 = Some(read_digest(text, fault)?),
            Key::Sha256 => self.sha256 = Some(read_digest(text, fault)?),
            Key::File => self.file = Some(read_text(alloc, text, fault)?),
        }
        Ok(())
    }

    // Whether the version, the build and the build number are missing or fit those of a record.
    pub(crate) fn fits_version(&self, view: RecordView<'_>) -> bool
        ensures { result ≡ fits_version self.now (seen view.entry) }
    {
        fits_constraint(&self.version, view.version())
            && fits_build_part(&self.build, view.build())
            && fits_number(self.build_number, view.build_number())
    }

    // Whether the digests are missing or are those of a record.
    pub(crate) fn fits_digests(&self, view: RecordView<'_>) -> bool
        ensures { result ≡ fits_digests self.now (seen view.entry) }
    {
        fits_digest(self.md5, view.md5()) && fits_digest(self.sha256, view.sha256())
    }

    // Whether each part that the place of a file decides is missing or fits.
    pub(crate) fn fits_place(&self, channel: &str, subdir: &str, file: &str) -> bool
        ensures { result ≡ fits_place self.now channel.now subdir.now file.now }
    {
        fits_text(&self.channel, channel)
            && fits_text(&self.subdir, subdir)
            && fits_text(&self.file, file)
    }
}

ghost use Rattle.std.specs.Prelude.{List, ◌==◌};
ghost use Rattle.gateway_words.specs.Reading.{Gives};
ghost use Rattle.conda_version.specs.Allowing.{allows};
ghost use Rattle.conda_version.specs.Leaf.{is_text};
ghost use Rattle.match_spec.specs.Matching.{is_digest, unless_there};
ghost use Rattle.match_spec.specs.Number.{number_test, passes};
ghost use Rattle.match_spec.specs.Reading.{build_or, digest_or, fault_of, or_fault, text_or};
ghost use Rattle.match_spec.specs.Seen.{test_read, test_there};
ghost use Rattle.match_spec.specs.StarBuild.{fits_build};

// The build of some bytes, or this fault.
fn read_build(alloc: Global, text: &[u8], fault: SpecFault) -> Result<Bytes, SpecRefusal>
    ensures { Gives (λ b. b) fault_of result (build_or fault text.now) }
{
    if !is_build(text) {
        return Err(SpecRefusal::Fault(fault));
    }
    Ok(Bytes::copy(alloc, text)?)
}

// A copy of some bytes, or this fault where there are none.
fn read_text(alloc: Global, text: &[u8], fault: SpecFault) -> Result<Bytes, SpecRefusal>
    ensures { Gives (λ b. b) fault_of result (text_or fault text.now) }
{
    if text.is_empty() {
        return Err(SpecRefusal::Fault(fault));
    }
    Ok(Bytes::copy(alloc, text)?)
}

// The test of build numbers of some bytes, or this fault.
fn read_number(text: &[u8], fault: SpecFault) -> Result<NumberTest, SpecFault>
    ensures { test_read result ≡ or_fault fault (number_test text.now) }
{
    NumberTest::read(text).ok_or(fault)
}

// The digest of some bytes, or this fault.
fn read_digest<const N: usize>(text: &[u8], fault: SpecFault) -> Result<[u8; N], SpecFault>
    ensures { result ≡ digest_or N fault text.now }
{
    <[u8; N] as FromHex>::from_hex(text).ok().ok_or(fault)
}

// Whether there is no constraint, or one that allows a version.
fn fits_constraint(wanted: &Option<Constraint>, version: &str) -> bool
    ensures { result ≡ unless_there wanted.now (λ constraint. allows constraint version.now) }
{
    match wanted {
        Some(constraint) => constraint.allows(version),
        None => true,
    }
}

// Whether there is no build, or one that fits a build.
fn fits_build_part(wanted: &Option<Bytes>, build: &str) -> bool
    ensures { result ≡ unless_there wanted.now (λ b. fits_build b build.now) }
{
    match wanted {
        Some(wanted) => fits_build(wanted.as_slice(), build.as_bytes()),
        None => true,
    }
}

// Whether there is no test, or one that a build number passes.
fn fits_number(wanted: Option<NumberTest>, number: u64) -> bool
    ensures { result ≡ unless_there (test_there wanted) (λ t. passes t number) }
{
    match wanted {
        Some(wanted) => wanted.passes(number),
        None => true,
    }
}

// Whether there is no text, or an equal one.
fn fits_text(wanted: &Option<Bytes>, text: &str) -> bool
    ensures { result ≡ unless_there wanted.now (λ b. is_text b text.now) }
{
    match wanted {
        Some(wanted) => wanted.as_slice() == text.as_bytes(),
        None => true,
    }
}

// Whether there is no digest, or the record has an equal one.
fn fits_digest<const N: usize>(wanted: Option<[u8; N]>, found: Option<[u8; N]>) -> bool
    ensures { result ≡ unless_there wanted.entry (is_digest found.entry) }
{
    match (wanted, found) {
        (None, _) => true,
        (Some(wanted), Some(found)) => found == wanted,
        (Some(_), None) => false,
    }
}
