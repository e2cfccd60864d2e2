//! What stands outside a spec's bracket: a channel, a name, a version and a build.

ghost use Rattle.std.specs.Prelude.{◌≡◌, ◌+◌, ◌≤◌, ◌<◌, ◌^◌, Ok, length};
ghost use Rattle.std.specs.List.{prefix_len};
ghost use Rattle.std.specs.Str.{IsAscii};
ghost use Rattle.gateway_words.specs.Reading.{Gives};
ghost use Rattle.conda_name.specs.Name.{is_name_byte, lower_case, name_of};
ghost use Rattle.match_spec.specs.Kept.{bytes_of, kept as kept_of};
ghost use Rattle.match_spec.specs.Parts.{Meaning, no_parts};
ghost use Rattle.match_spec.specs.Seen.{passage_in};
ghost use Rattle.match_spec.specs.Reading.{fault_of, may_follow, named, named_before, outside_of, place_of, with_kept, with_rest, with_words};
ghost use Rattle.byte_text.specs.Text.{cut_at};
ghost use Rattle.gateway_words.specs.Ascii.{space};

use crate::fault::{SpecFault, SpecRefusal};
use crate::kept::{Placed, bytes_of, form_constraint, form_of, kept, place_of_last};
use crate::parts::{Faults, Parts};
use crate::passage::Passage;
use crate::text::before_colons;
use byte_text::{before_last, cut_at, find, skip_blanks};
use conda_name::{Name, NameRefusal, name_len};
use std::alloc::Global;
use std::str;

// The name and the parts outside the bracket.
#[tactic(auto, unfolding(crate::specs::Reading::outside_of))]
pub(crate) fn read_outside(alloc: Global, p: Passage<'_>) -> Result<(Name, Parts), SpecRefusal>
    ensures { Gives (λ r. record { name = r.0; parts = r.1 }) fault_of result
        (outside_of (passage_in p.entry)) }
{
    let Some(channel) = before_colons(p.text) else {
        return read_named(alloc, p, Parts::new());
    };
    let parts = read_place(alloc, channel)?;
    read_named(alloc, p.behind(channel.len() + 2), parts)
}

// Reads the channel, and perhaps the subdir, of what stands before the last `::`.
fn read_place(alloc: Global, text: &[u8]) -> Result<Parts, SpecRefusal>
    ensures { Gives (λ p. p) fault_of result (place_of text.now) }
{
    let mut parts = Parts::new();
    let Some(channel) = before_last(b'/', text) else {
        if text.is_empty() {
            return Err(SpecRefusal::Fault(SpecFault::NoName));
        }
        parts.put_channel(alloc, text)?;
        return Ok(parts);
    };
    let (_, subdir) = text.split_at(channel.len() + 1);
    if channel.is_empty() || subdir.is_empty() {
        return Err(SpecRefusal::Fault(SpecFault::NoName));
    }
    parts.put_channel(alloc, channel)?;
    parts.put_subdir(alloc, subdir)?;
    Ok(parts)
}

// The name with which a passage begins, and the parts with the version and the build behind it.
#[tactic(auto, unfolding(crate::specs::Reading::named))]
fn read_named(alloc: Global, p: Passage<'_>, parts: Parts) -> Result<(Name, Parts), SpecRefusal>
    ensures { Gives (λ r. record { name = r.0; parts = r.1 }) fault_of result
        (named (passage_in p.entry) parts) }
{
    let p = p.begun();
    let (run, _) = p.text.split_at(name_len(p.text));
    if run.is_empty() {
        return Err(SpecRefusal::Fault(SpecFault::NoName));
    }
    read_before(alloc, run, p.behind(run.len()), parts)
}

// The name that is a run of bytes, and the parts with the version and the build of what follows.
fn read_before(
    alloc: Global,
    run: &[u8],
    rest: Passage<'_>,
    mut parts: Parts,
) -> Result<(Name, Parts), SpecRefusal>
    requires ascii { IsAscii run.now }
    requires legal { name_of run.now ≡ Ok (lower_case run.now) }
    ensures { Gives (λ r. record { name = r.0; parts = r.1 }) fault_of result
        (named_before run.now (passage_in rest.entry) parts) }
{
    if !may_follow(rest.text) {
        return Err(SpecRefusal::Fault(SpecFault::Name(rest.at as u64)));
    }
    read_rest(alloc, rest.trimmed(), &mut parts)?;
    Ok((read_name(alloc, run)?, parts))
}

// Whether the first byte may follow a name, as the end may.
fn may_follow(text: &[u8]) -> bool
    ensures { result ≡ may_follow text.now }
{
    match text {
        [byte, ..] => matches!(byte, b' ' | b'=' | b'<' | b'>' | b'!' | b'~'),
        [] => true,
    }
}

// The name of a run of its bytes.
fn read_name(alloc: Global, run: &[u8]) -> Result<Name, SpecRefusal>
    requires ascii { IsAscii run.now }
    requires legal { name_of run.now ≡ Ok (lower_case run.now) }
    ensures { Gives (λ n. n) fault_of result (Ok (lower_case run.now)) }
{
    let Ok(text) = str::from_utf8(run) else {
        return Err(SpecRefusal::Fault(SpecFault::NoName));
    };
    match Name::read(alloc, text) {
        Ok(name) => Ok(name),
        Err(NameRefusal::Memory) => Err(SpecRefusal::Memory),
        Err(NameRefusal::Empty | NameRefusal::Char(_)) => {
            Err(SpecRefusal::Fault(SpecFault::NoName))
        }
    }
}

// Reads the version and the build of what stands behind a name.
#[tactic(auto, unfolding(crate::specs::Reading::with_rest))]
fn read_rest(alloc: Global, p: Passage<'_>, parts: &mut Parts) -> Result<(), SpecRefusal>
    ensures { Gives (λ _. parts.new) fault_of result (with_rest (passage_in p.entry) parts.old) }
{
    if p.text.is_empty() {
        return Ok(());
    }
    let kept = kept(alloc, p.text)?;
    let bytes = bytes_of(alloc, kept.as_slice())?;
    read_kept(alloc, p, kept.as_slice(), bytes.as_slice(), parts)
}

// Reads the version and the build of the bytes that stay.
fn read_kept(
    alloc: Global,
    p: Passage<'_>,
    kept: &[Placed],
    bytes: &[u8],
    parts: &mut Parts,
) -> Result<(), SpecRefusal>
    requires { kept.now ≡ kept_of p.text.now }
    ensures { Gives (λ _. parts.new) fault_of result
        (with_kept parts.old p.entry.at (length p.entry.text.now) kept.now bytes.now) }
{
    let Some((version, build)) = form_of(bytes) else {
        return read_words(alloc, p, kept, bytes, parts);
    };
    let constraint = form_constraint(alloc, version)?;
    let at = p.at + place_of_last(build.len(), p.text, kept);
    let faults = Faults {
        version: SpecFault::Version(p.at as u64),
        build: SpecFault::Build(at as u64),
    };
    parts.put_both(alloc, constraint.as_slice(), build, faults)
}

// Reads the version up to the first blank, and the build behind it.
fn read_words(
    alloc: Global,
    p: Passage<'_>,
    kept: &[Placed],
    bytes: &[u8],
    parts: &mut Parts,
) -> Result<(), SpecRefusal>
    requires { kept.now ≡ kept_of p.text.now }
    ensures { Gives (λ _. parts.new) fault_of result
        (with_words parts.old p.entry.at (length p.entry.text.now) kept.now bytes.now
        (cut_at space bytes.now)) }
{
    let fault = SpecFault::Version(p.at as u64);
    let Some((version, behind)) = cut_at(b' ', bytes) else {
        return parts.put_version(alloc, bytes, fault);
    };
    let build = skip_blanks(behind);
    if let Some(n) = find(b' ', build) {
        let at = p.at + place_of_last(build.len() - n, p.text, kept);
        return Err(SpecRefusal::Fault(SpecFault::Build(at as u64)));
    }
    let at = p.at + place_of_last(build.len(), p.text, kept);
    let faults = Faults {
        version: fault,
        build: SpecFault::Build(at as u64),
    };
    parts.put_both(alloc, version, build, faults)
}
