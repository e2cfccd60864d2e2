//! The bracket of a spec: where it stands, and the parts that it asks for.

ghost use Rattle.std.specs.Prelude.{◌≡◌};
ghost use Rattle.gateway_words.specs.Reading.{Gives};
ghost use Rattle.match_spec.specs.Bracket.{entries, open_quote};
ghost use Rattle.match_spec.specs.Seen.{passage_in, passage_there};
ghost use Rattle.match_spec.specs.Parts.{no_parts};
ghost use Rattle.match_spec.specs.Reading.{bracket_of, fault_of, key_of, new_key, with_cut_value, with_entries, with_entry};
ghost use Rattle.match_spec.specs.Seen.{entry_in, key_in, key_read, value_in};

use crate::entry::{Entry, Value};
use crate::fault::{SpecFault, SpecRefusal};
use crate::key::{Key, key_of};
use crate::parts::Parts;
use crate::passage::Passage;
use byte_text::find;
use std::alloc::Global;

// What stands before the bracket of a spec, and what stands in it, if it has one.
#[derive(Clone, Copy)]
pub(crate) struct Halves<'a> {
    pub(crate) outside: Passage<'a>,
    pub(crate) inside: Option<Passage<'a>>,
}

impl<'a> Halves<'a> {
    ghost use Rattle.std.specs.Prelude.{◌≡◌, ◌<◌, length, Some, true};
    ghost use Rattle.match_spec.specs.Bracket.{halves_by, halves_of};
    ghost use Rattle.match_spec.specs.Seen.{passage_in};
    ghost use Rattle.match_spec.specs.Seen.{halves_seen};

    // A spec cut at its bracket.
    #[tactic(auto, unfolding(crate::specs::Bracket::halves_of))]
    pub(crate) fn of(p: Passage<'a>) -> Result<Halves<'a>, SpecFault>
        ensures { halves_seen result ≡ halves_of (passage_in p.entry) }
    {
        let ends = matches!(p.text, [.., b']']);
        match find(b'[', p.text) {
            None if ends => Err(SpecFault::Bracket((p.at + (p.text.len() - 1)) as u64)),
            None => Ok(Halves {
                outside: p,
                inside: None,
            }),
            Some(n) if ends => Halves::around(p, n),
            Some(n) => Err(SpecFault::Bracket((p.at + n) as u64)),
        }
    }

    // A spec cut at the bracket that begins at a place and goes up to the last byte.
    fn around(p: Passage<'a>, n: usize) -> Result<Halves<'a>, SpecFault>
        requires { n < length p.text.now }
        ensures { halves_seen result ≡ halves_by (passage_in p.entry) (Some n) true }
    {
        let behind = p.behind(n + 1);
        let inside = behind.front(behind.text.len().saturating_sub(1));
        match open_quote(inside) {
            Some(at) => Err(SpecFault::Bracket(at as u64)),
            None => Ok(Halves {
                outside: p.front(n).ended(),
                inside: Some(inside),
            }),
        }
    }
}

// The place of the first quote in a bracket that is not closed.
fn open_quote(inside: Passage<'_>) -> Option<usize>
    ensures { result ≡ open_quote (entries (passage_in inside.entry)) }
{
    let mut left = Some(inside);
    'parts: while let Some(p) = left {
        let entry = Entry::of(p);
        if let Some(Value::Unclosed(at)) = entry.value {
            return Some(at);
        }
        left = entry.rest;
    }
    None
}

// The parts of a bracket, which may be empty.
pub(crate) fn read_bracket(alloc: Global, inside: Option<Passage<'_>>) -> Result<Parts, SpecRefusal>
    ensures { Gives (λ p. p) fault_of result (bracket_of (passage_there inside.entry)) }
{
    match inside {
        Some(p) if !p.is_blank() => read_entries(alloc, p),
        Some(_) | None => Ok(Parts::new()),
    }
}

// The parts of a bracket that isn't empty.
fn read_entries(alloc: Global, inside: Passage<'_>) -> Result<Parts, SpecRefusal>
    ensures { Gives (λ p. p) fault_of result
        (with_entries (entries (passage_in inside.entry)) no_parts) }
{
    let mut parts = Parts::new();
    let mut left = Some(inside);
    'parts: while let Some(p) = left {
        let entry = Entry::of(p);
        read_entry(alloc, &mut parts, entry)?;
        left = entry.rest;
    }
    Ok(parts)
}

// Reads one part of a bracket.
#[tactic(auto, unfolding(crate::specs::Reading::with_entry))]
fn read_entry(alloc: Global, parts: &mut Parts, entry: Entry<'_>) -> Result<(), SpecRefusal>
    ensures { Gives (λ _. parts.new) fault_of result (with_entry (entry_in entry.entry) parts.old) }
{
    let place = entry.key.trimmed();
    let fault = SpecFault::Key(place.at as u64);
    let Some(value) = entry.value else {
        return Err(SpecRefusal::Fault(fault));
    };
    let key = new_key(parts, place.text, fault)?;
    read_cut_value(alloc, parts, key, value)
}

// The key that some bytes are, where it is one and its part isn't there yet.
fn new_key(parts: &Parts, text: &[u8], fault: SpecFault) -> Result<Key, SpecFault>
    ensures { key_read result ≡ new_key fault (key_of text.now) parts.now }
{
    match key_of(text) {
        Some(key) if !parts.has(key) => Ok(key),
        Some(_) | None => Err(fault),
    }
}

// Reads the value of a key: behind a closing quote may stand blanks alone.
fn read_cut_value(
    alloc: Global,
    parts: &mut Parts,
    key: Key,
    value: Value<'_>,
) -> Result<(), SpecRefusal>
    ensures { Gives (λ _. parts.new) fault_of result
        (with_cut_value (key_in key) (value_in value.entry) parts.old) }
{
    match value {
        Value::Bare(text) => parts.read_value(alloc, key, text.ended()),
        Value::Quoted(at, text, tail) => {
            if !tail.is_blank() {
                return Err(SpecRefusal::Fault(SpecFault::Value(at as u64)));
            }
            parts.read_value(alloc, key, text)
        }
        Value::Unclosed(at) => Err(SpecRefusal::Fault(SpecFault::Bracket(at as u64))),
    }
}
