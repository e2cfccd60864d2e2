//! What is asked of the channels of a store, line by line.

ghost use Rattle.std.specs.Prelude.{◌≡◌, ◌+◌, ◌≤◌, map, IfErr, IfOk, IfSome, IsErrOf, OnOk, Ok, Err};
ghost use Rattle.gateway_words.specs.Causes.{Rose};
ghost use Rattle.gateway_words.specs.Reading.{Gives};
ghost use Rattle.closure_request.specs.Reading.{fault_of};
ghost use Rattle.store_closure.specs.Asked.{request_in, site_of};
ghost use Rattle.store_closure.specs.Lines.{input_lines, numbers_of, LineEnd, LinesEnd};
ghost use Rattle.store_closure.specs.Puts.{PutsLine, PutsRefusal};
ghost use Rattle.store_closure.specs.Stops.{bad_of};

use crate::lines::next_line;
use crate::names::joined;
use crate::places::{ChannelName, StorePlace, SubdirName, places_of};
use crate::run::closure_over;
use crate::stop::Stop;
use answer_text::{put_answer, put_refused};
use channel_store::Store;
use closure_request::{Channel, Format, Priority, Request, RequestRefusal};
use link_io::HttpUrl;
use mp_codec::Text;
use std::alloc::{AllocError, Global};
use std::marker::Model;

/// What is asked of the channels of a store: its channels and subdirs, and the options of each
/// request. Contracts see an `Asked`.
#[derive(Drop)]
pub struct StoreRequests {
    names: Vec<ChannelName>,
    subdir_names: Vec<SubdirName>,
    channels: Vec<Channel>,
    subdirs: Vec<Text>,
    places: Vec<StorePlace>,
    flat: bool,
    format: Format,
    priority: Priority,
}

impl Model for StoreRequests {
    ghost use Rattle.std.specs.Prelude.{◌≡◌, map};
    ghost use Rattle.store_closure.specs.Asked.{Asked, site_of};
    ghost use Rattle.store_closure.specs.Places.{places_of};

    ghost Value = { Asked };

    ghost view = { λ a. record {
      channels = a.names.items;
      subdirs = a.subdir_names.items;
      flat = a.flat;
      format = a.format;
      priority = a.priority;
    } };

    ghost invariant = { λ a. (a.channels.items ≡ map site_of a.names.items)
        × (a.subdirs.items ≡ a.subdir_names.items)
        × (a.places.items ≡ places_of a.names.items a.subdir_names.items) };
}

/// The answers to the lines of an input.
#[derive(Debug, Drop)]
pub struct Answers {
    /// Their text.
    pub text: Vec<u8>,
    /// Whether a line was refused.
    pub refused: bool,
}

impl StoreRequests {
    /// What is asked of these channels and subdirs.
    pub fn new(
        alloc: Global,
        names: Vec<ChannelName>,
        subdir_names: Vec<SubdirName>,
        flat: bool,
        format: Format,
        priority: Priority,
    ) -> Result<StoreRequests, AllocError>
        ensures { IfOk result (λ it. it ≡ record {
          channels = names.items;
          subdirs = subdir_names.items;
          flat = flat;
          format = format;
          priority = priority;
        }) }
    {
        let channels = channels_of(alloc, &names)?;
        let subdirs = texts_of(alloc, &subdir_names)?;
        let places = places_of(alloc, &names, &subdir_names)?;
        Ok(StoreRequests {
            names,
            subdir_names,
            channels,
            subdirs,
            places,
            flat,
            format,
            priority,
        })
    }

    /// The answers to the lines of an input, each of which is a request, over the indexes and shards
    /// of a store. It changes no file.
    ///
    /// `Bad` with the first file that is bad: of the first line that has one, in the order of its
    /// needs. `Failed` where the store failed. (`docs/FORMATS.md`, "Closures".)
    pub fn answers<S: Store>(
        &self,
        alloc: Global,
        store: &mut S,
        input: &[u8],
    ) -> Result<Answers, Stop>
        // The text, and where there is none.
        ensures answered { IfOk result (λ given. IfSome (S.files store.old) (λ told.
            LinesEnd told self.now 1 (input_lines input.now) (Ok (
              given.text.items,
              given.refused,
            )))) }
        ensures bad { IfErr result (λ stop. IfSome (bad_of stop) (λ bad. IfSome (S.files
            store.old)
            (λ told. LinesEnd told self.now 1 (input_lines input.now) (Err bad)))) }

        ensures same { S.files store.new ≡ S.files store.old }
        ensures later { S.faults store.old ≤ S.faults store.new }
        ensures cause { IsErrOf result Stop.Failed
            → Rose (S.faults store.old) (S.faults store.new) }
    {
        let mut text = Vec::new(alloc);
        let mut refused = false;
        let mut number = 1u64;
        let mut left = input;
        'lines: while let Some((line, rest)) = next_line(left) {
            let this = self.put_line(alloc, store, number, line, &mut text)?;
            refused = refused || this;
            number = following(number)?;
            left = rest;
        }
        Ok(Answers { text, refused })
    }

    // Appends what a line is answered with, and says whether it was refused.
    fn put_line<S: Store>(
        &self,
        alloc: Global,
        store: &mut S,
        number: u64,
        line: &[u8],
        out: &mut Vec<u8>,
    ) -> Result<bool, Stop>
        ensures text { IfOk result (λ refused. IfSome (S.files store.old) (λ told.
            PutsLine told self.now number line.now out.old.items out.new.items refused)) }
        ensures bad { IfErr result (λ stop. IfSome (bad_of stop) (λ bad. IfSome (S.files
            store.old)
            (λ told. LineEnd told self.now number line.now (Err bad)))) }
        ensures same { S.files store.new ≡ S.files store.old }
        ensures later { S.faults store.old ≤ S.faults store.new }
        ensures cause { IsErrOf result Stop.Failed
            → Rose (S.faults store.old) (S.faults store.new) }
    {
        match self.request(alloc, line) {
            Ok(request) => {
                let answer = closure_over(alloc, store, &self.places, request)?;
                put_answer(out, number, &answer)?;
                Ok(false)
            }
            Err(refusal) => {
                put_refusal(out, number, refusal)?;
                Ok(true)
            }
        }
    }

    // The request of a line.
    fn request(&self, alloc: Global, line: &[u8]) -> Result<Request, RequestRefusal>
        ensures gives { Gives (λ request. request) fault_of result (request_in self.now line.now) }
    {
        Request::read(
            alloc,
            &self.channels,
            &self.subdirs,
            self.flat,
            self.format,
            self.priority,
            line,
        )
    }
}

// The number behind a number.
fn following(number: u64) -> Result<u64, AllocError>
    ensures { IfOk result (λ next. next ≡ number + 1) }
{
    number.checked_add(1).ok_or(AllocError)
}

// Appends the line of a refusal; want of memory is no refusal.
fn put_refusal(out: &mut Vec<u8>, number: u64, refusal: RequestRefusal) -> Result<(), AllocError>
    ensures { OnOk result (PutsRefusal number refusal out.old.items out.new.items) }
{
    match refusal {
        RequestRefusal::Spec(spec, fault) => put_refused(out, number, spec, fault.number()),
        RequestRefusal::NotText => put_refused(out, number, 0, 9),
        RequestRefusal::Memory => Err(AllocError),
    }
}

// The channels of names.
fn channels_of(alloc: Global, names: &[ChannelName]) -> Result<Vec<Channel>, AllocError>
    ensures { IfOk result (λ channels. channels.items ≡ map site_of names.now) }
{
    let mut channels = Vec::new(alloc);
    for name in names {
        channels.push(channel_of(alloc, name)?)?;
    }
    Ok(channels)
}

// The channel of a name.
fn channel_of(alloc: Global, name: &ChannelName) -> Result<Channel, AllocError>
    ensures { IfOk result (λ channel. channel ≡ site_of name.now) }
{
    let front = joined(alloc, "http://store/", name.as_str())?;
    let base = joined(alloc, front.as_str(), "/")?;
    // A channel name has only bytes that an address may have, so that this is refused at want of
    // memory alone.
    let Ok(base) = HttpUrl::read(alloc, base.as_str()) else {
        return Err(AllocError);
    };
    Ok(Channel {
        name: Text::copy(alloc, name.as_str())?,
        base,
    })
}

// The texts of subdir names.
fn texts_of(alloc: Global, names: &[SubdirName]) -> Result<Vec<Text>, AllocError>
    ensures { IfOk result (λ texts. texts.items ≡ names.now) }
{
    let mut texts = Vec::new(alloc);
    for name in names {
        texts.push(Text::copy(alloc, name.as_str())?)?;
    }
    Ok(texts)
}
