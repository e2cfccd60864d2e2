//! Reading a request.

ghost use Rattle.std.specs.Prelude.{◌≡◌, ◌≤◌, ◌∷◌, length, IfOk};
ghost use Rattle.gateway_words.specs.Reading.{Gives};
ghost use Rattle.closure_request.specs.Reading.{fault_of, pieces, request_of, spec_at, specs_from, specs_of, with_spec};
ghost use Rattle.closure_request.specs.Seen.{pieces_left, size_left};

use crate::channel::Channel;
use crate::options::{Format, Priority};
use crate::refusal::RequestRefusal;
use crate::request::Request;
use match_spec::{Spec, SpecRefusal};
use mp_codec::{Text, utf8_text};
use std::alloc::{AllocError, Global};

impl Request {
    /// The request of these channels, subdirs and options whose specs stand in a line, with `;` between
    /// them.
    ///
    /// `NotText` where the line isn't UTF-8; else `Spec` with the number and the fault of the first piece
    /// that is no spec. A line without a byte is one piece, which is no spec.
    /// (`docs/FORMATS.md`, "Requests".)
    pub fn read(
        alloc: Global,
        channels: &[Channel],
        subdirs: &[Text],
        flat: bool,
        format: Format,
        priority: Priority,
        line: &[u8],
    ) -> Result<Request, RequestRefusal>
        ensures exact { Gives (λ request. request) fault_of result
            (request_of channels.now subdirs.now flat format priority line.now) }
    {
        let specs = specs_of(alloc, line)?;
        let channels = copy_channels(alloc, channels)?;
        let subdirs = copy_subdirs(alloc, subdirs)?;
        Ok(Request {
            channels,
            subdirs,
            specs,
            flat,
            format,
            priority,
        })
    }
}

// The specs of a line.
fn specs_of(alloc: Global, line: &[u8]) -> Result<Vec<Spec>, RequestRefusal>
    ensures { Gives (λ specs. specs.items) fault_of result (specs_of line.now) }
{
    match utf8_text(line) {
        Some(text) => specs_of_text(alloc, text),
        None => Err(RequestRefusal::NotText),
    }
}

// The specs of a line that is text.
fn specs_of_text(alloc: Global, text: &str) -> Result<Vec<Spec>, RequestRefusal>
    ensures { Gives (λ specs. specs.items) fault_of result (specs_from 1 (pieces text.now)) }
{
    let mut specs = Vec::new(alloc);
    let mut left = Some(text);
    'pieces: while let Some(text) = left {
        let (piece, rest) = cut(text);
        add_spec(alloc, piece, &mut specs)?;
        left = rest;
    }
    Ok(specs)
}

// The first piece of a text, and what stands behind its `;`, if it has one.
fn cut(text: &str) -> (&str, Option<&str>)
    ensures pieces { pieces text.now ≡ result.0.now ∷ pieces_left result.1 }
    ensures shorter { size_left result.1 ≤ length text.now }
{
    match text.split_once(';') {
        Some((piece, rest)) => (piece, Some(rest)),
        None => (text, None),
    }
}

// Adds the spec of the next piece.
fn add_spec(alloc: Global, piece: &str, specs: &mut Vec<Spec>) -> Result<(), RequestRefusal>
    ensures { Gives (λ _. specs.new.items) fault_of result (with_spec specs.old.items piece.now) }
{
    let number = (specs.len() as u64)
        .checked_add(1)
        .ok_or(RequestRefusal::Memory)?;
    let spec = spec_at(alloc, number, piece)?;
    specs.push(spec)?;
    Ok(())
}

// The spec of a piece, which has a number.
#[tactic(auto, unfolding(crate::specs::Reading::spec_at))]
fn spec_at(alloc: Global, number: u64, piece: &str) -> Result<Spec, RequestRefusal>
    ensures { Gives (λ spec. spec) fault_of result (spec_at number piece.now) }
{
    match Spec::read(alloc, piece) {
        Ok(spec) => Ok(spec),
        Err(SpecRefusal::Fault(fault)) => Err(RequestRefusal::Spec(number, fault)),
        Err(SpecRefusal::Memory) => Err(RequestRefusal::Memory),
    }
}

// Copies of channels.
fn copy_channels(alloc: Global, channels: &[Channel]) -> Result<Vec<Channel>, AllocError>
    ensures { IfOk result (λ copies. copies.items ≡ channels.now) }
{
    let mut copies = Vec::new(alloc);
    for channel in channels {
        copies.push(channel.copy(alloc)?)?;
    }
    Ok(copies)
}

// Copies of subdirs.
fn copy_subdirs(alloc: Global, subdirs: &[Text]) -> Result<Vec<Text>, AllocError>
    ensures { IfOk result (λ copies. copies.items ≡ subdirs.now) }
{
    let mut copies = Vec::new(alloc);
    for subdir in subdirs {
        copies.push(Text::copy(alloc, subdir.as_str())?)?;
    }
    Ok(copies)
}
