//! The options by which channels of a store are asked.
ghost use Rattle.std.specs.Prelude.{◌≡◌, ◌∷◌, ◌≤◌, Some, None, length, IfOk, IsErrOf, OnOk};
ghost use Rattle.closure_request.specs.Options.{format_of, priority_of};
ghost use Rattle.channel_store.specs.Names.{is_channel_name, is_subdir_name};
ghost use Rattle.store_closure.specs.Options.{asked_by, closure_words, has_text, names_in, none_met, option_of, value_of, with_channels, with_flat, with_format, with_name, with_option, with_priority, with_subdirs, with_word, with_words};
ghost use Rattle.store_closure.specs.Pieces.{pieces, pieces_left, size_left};

use crate::asked::StoreRequests;
use crate::places::{ChannelName, SubdirName};
use channel_store::{is_channel_name, is_subdir_name};
use closure_request::{Format, Priority};
use mp_codec::Text;
use std::alloc::{AllocError, AllocFailed, Global};
use std::marker::Model;

// The most channels, and the most subdirs.
const MOST_NAMES: usize = 16;

/// Why options were not read.
#[derive(Clone, Copy, Debug, PartialEq, Eq)]
pub enum OptionsRefusal {
    /// They are none, or lack one that is needed, or have one twice.
    Usage,
    /// Memory ran out.
    Memory,
}

impl From<AllocError> for OptionsRefusal {
    ghost use Rattle.std.specs.Prelude.{◌≡◌};
    ghost use Rattle.store_closure.specs.declared.words.OptionsRefusal.TheVariants as refusal;

    ghost from_gives = { λ _ e. e ≡ refusal.Memory };

    fn from(_: AllocError) -> Self {
        OptionsRefusal::Memory
    }
}

impl<T: Drop> From<AllocFailed<T>> for OptionsRefusal {
    ghost use Rattle.std.specs.Prelude.{◌≡◌};
    ghost use Rattle.store_closure.specs.declared.words.OptionsRefusal.TheVariants as refusal;

    ghost from_gives = { λ _ e. e ≡ refusal.Memory };

    fn from(_: AllocFailed<T>) -> Self {
        OptionsRefusal::Memory
    }
}

// The options that were met.
#[derive(Drop)]
struct Met {
    channels: Option<Vec<ChannelName>>,
    subdirs: Option<Vec<SubdirName>>,
    flat: bool,
    format: Option<Format>,
    priority: Option<Priority>,
}

impl Model for Met {
    ghost use Rattle.std.specs.Option.{option_map};
    ghost use Rattle.store_closure.specs.Options.{Met as MetOptions};

    ghost Value = { MetOptions };

    ghost view = { λ m. record {
      channels = option_map (λ names. names.items) m.channels;
      subdirs = option_map (λ names. names.items) m.subdirs;
      flat = m.flat;
      format = m.format;
      priority = m.priority;
    } };
}

/// What options ask for: `--channels=a,..` and `--subdirs=x,..`, and where they are there `--flat`,
/// `--format=..` and `--priority=..`, in any order and each at most once.
///
/// `Usage` where the words are others. (`docs/FORMATS.md`, "Options of requests".)
pub fn closure_words(alloc: Global, words: &[Text]) -> Result<StoreRequests, OptionsRefusal>
    ensures found { IfOk result (λ asked. closure_words words.now ≡ Some asked) }
    ensures usage { IsErrOf result OptionsRefusal.Usage → closure_words words.now ≡ None }
{
    let met = options(alloc, words)?;
    asked_by(alloc, met)
}

// The options that are met in words.
fn options(alloc: Global, words: &[Text]) -> Result<Met, OptionsRefusal>
    ensures found { IfOk result (λ met. with_words none_met words.now ≡ Some met) }
    ensures usage { IsErrOf result OptionsRefusal.Usage → with_words none_met words.now ≡ None }
{
    let mut met = Met {
        channels: None,
        subdirs: None,
        flat: false,
        format: None,
        priority: None,
    };
    for word in words {
        met.read(alloc, word.as_str())?;
    }
    Ok(met)
}

// What is asked by options.
fn asked_by(alloc: Global, met: Met) -> Result<StoreRequests, OptionsRefusal>
    ensures found { IfOk result (λ asked. asked_by met.channels met.subdirs met ≡ Some asked) }
    ensures usage { IsErrOf result OptionsRefusal.Usage
        → asked_by met.channels met.subdirs met ≡ None }
{
    let Met {
        channels,
        subdirs,
        flat,
        format,
        priority,
    } = met;
    let (Some(channels), Some(subdirs)) = (channels, subdirs) else {
        return Err(OptionsRefusal::Usage);
    };
    let format = format.unwrap_or(Format::PreferConda);
    let priority = priority.unwrap_or(Priority::Flexible);
    match StoreRequests::new(alloc, channels, subdirs, flat, format, priority) {
        Ok(asked) => Ok(asked),
        Err(_) => Err(OptionsRefusal::Memory),
    }
}

impl Met {
    // Reads a word.
    fn read(&mut self, alloc: Global, word: &str) -> Result<(), OptionsRefusal>
        ensures ok { OnOk result (with_word self.old word.now ≡ Some self.new) }
        ensures usage { IsErrOf result OptionsRefusal.Usage → with_word self.old word.now ≡ None }
    {
        if word == "--flat" {
            return self.set_flat();
        }
        self.read_option(alloc, option_of(word), value_of(word))
    }

    // Reads an option and its value.
    fn read_option(
        &mut self,
        alloc: Global,
        option: &str,
        value: &str,
    ) -> Result<(), OptionsRefusal>
        ensures ok { OnOk result (with_option self.old option.now value.now ≡ Some self.new) }
        ensures usage { IsErrOf result OptionsRefusal.Usage
            → with_option self.old option.now value.now ≡ None }
    {
        if option == "--channels" {
            return self.set_channels(alloc, value);
        }
        if option == "--subdirs" {
            return self.set_subdirs(alloc, value);
        }
        if option == "--format" {
            return self.set_format(value);
        }
        if option == "--priority" {
            return self.set_priority(value);
        }
        Err(OptionsRefusal::Usage)
    }

    fn set_flat(&mut self) -> Result<(), OptionsRefusal>
        ensures ok { OnOk result (with_flat self.old ≡ Some self.new) }
        ensures usage { IsErrOf result OptionsRefusal.Usage → with_flat self.old ≡ None }
    {
        if self.flat {
            return Err(OptionsRefusal::Usage);
        }
        self.flat = true;
        Ok(())
    }

    fn set_channels(&mut self, alloc: Global, value: &str) -> Result<(), OptionsRefusal>
        ensures ok { OnOk result (with_channels self.old (names_in is_channel_name value.now)
            ≡ Some self.new) }
        ensures usage { IsErrOf result OptionsRefusal.Usage
            → with_channels self.old (names_in is_channel_name value.now) ≡ None }
    {
        if self.channels.is_some() {
            return Err(OptionsRefusal::Usage);
        }
        self.channels = Some(channel_names(alloc, value)?);
        Ok(())
    }

    fn set_subdirs(&mut self, alloc: Global, value: &str) -> Result<(), OptionsRefusal>
        ensures ok { OnOk result (with_subdirs self.old (names_in is_subdir_name value.now)
            ≡ Some self.new) }
        ensures usage { IsErrOf result OptionsRefusal.Usage
            → with_subdirs self.old (names_in is_subdir_name value.now) ≡ None }
    {
        if self.subdirs.is_some() {
            return Err(OptionsRefusal::Usage);
        }
        self.subdirs = Some(subdir_names(alloc, value)?);
        Ok(())
    }

    fn set_format(&mut self, value: &str) -> Result<(), OptionsRefusal>
        ensures ok { OnOk result (with_format self.old (format_of value.now) ≡ Some self.new) }
        ensures usage { IsErrOf result OptionsRefusal.Usage
            → with_format self.old (format_of value.now) ≡ None }
    {
        let Some(format) = Format::of(value) else {
            return Err(OptionsRefusal::Usage);
        };
        if self.format.is_some() {
            return Err(OptionsRefusal::Usage);
        }
        self.format = Some(format);
        Ok(())
    }

    fn set_priority(&mut self, value: &str) -> Result<(), OptionsRefusal>
        ensures ok { OnOk result (with_priority self.old (priority_of value.now)
            ≡ Some self.new) }
        ensures usage { IsErrOf result OptionsRefusal.Usage
            → with_priority self.old (priority_of value.now) ≡ None }
    {
        let Some(priority) = Priority::of(value) else {
            return Err(OptionsRefusal::Usage);
        };
        if self.priority.is_some() {
            return Err(OptionsRefusal::Usage);
        }
        self.priority = Some(priority);
        Ok(())
    }
}

/// The option of a word: what stands before its first `=`.
pub fn option_of(word: &str) -> &str
    ensures { result.now ≡ option_of word.now }
{
    match word.split_once('=') {
        Some((option, _)) => option,
        None => word,
    }
}

/// The value of a word: what stands behind its first `=`.
pub fn value_of(word: &str) -> &str
    ensures { result.now ≡ value_of word.now }
{
    match word.split_once('=') {
        Some((_, value)) => value,
        None => "",
    }
}

// The channel names in a text.
fn channel_names(alloc: Global, text: &str) -> Result<Vec<ChannelName>, OptionsRefusal>
    ensures found { IfOk result (λ names. names_in is_channel_name text.now ≡ Some names.items) }
    ensures usage { IsErrOf result OptionsRefusal.Usage
        → names_in is_channel_name text.now ≡ None }
{
    let mut names = Vec::new(alloc);
    let mut left = Some(text);
    'pieces: while let Some(text) = left {
        let (piece, rest) = cut(text);
        add_channel(alloc, piece, &mut names)?;
        left = rest;
    }
    Ok(names)
}

// The subdir names in a text.
fn subdir_names(alloc: Global, text: &str) -> Result<Vec<SubdirName>, OptionsRefusal>
    ensures found { IfOk result (λ names. names_in is_subdir_name text.now ≡ Some names.items) }
    ensures usage { IsErrOf result OptionsRefusal.Usage
        → names_in is_subdir_name text.now ≡ None }
{
    let mut names = Vec::new(alloc);
    let mut left = Some(text);
    'pieces: while let Some(text) = left {
        let (piece, rest) = cut(text);
        add_subdir(alloc, piece, &mut names)?;
        left = rest;
    }
    Ok(names)
}

// Adds a channel name.
fn add_channel(
    alloc: Global,
    text: &str,
    names: &mut Vec<ChannelName>,
) -> Result<(), OptionsRefusal>
    ensures ok { OnOk result (with_name is_channel_name names.old.items text.now
        ≡ Some names.new.items) }
    ensures usage { IsErrOf result OptionsRefusal.Usage
        → with_name is_channel_name names.old.items text.now ≡ None }
{
    if !is_channel_name(text) || has_channel(names, text) || names.len() >= MOST_NAMES {
        return Err(OptionsRefusal::Usage);
    }
    names.push(ChannelName::copy(alloc, text)?)?;
    Ok(())
}

// Adds a subdir name.
fn add_subdir(alloc: Global, text: &str, names: &mut Vec<SubdirName>) -> Result<(), OptionsRefusal>
    ensures ok { OnOk result (with_name is_subdir_name names.old.items text.now
        ≡ Some names.new.items) }
    ensures usage { IsErrOf result OptionsRefusal.Usage
        → with_name is_subdir_name names.old.items text.now ≡ None }
{
    if !is_subdir_name(text) || has_subdir(names, text) || names.len() >= MOST_NAMES {
        return Err(OptionsRefusal::Usage);
    }
    names.push(SubdirName::copy(alloc, text)?)?;
    Ok(())
}

fn has_channel(names: &[ChannelName], text: &str) -> bool
    ensures { result ≡ has_text names.now text.now }
{
    for name in names {
        if name.as_str() == text {
            return true;
        }
    }
    false
}

fn has_subdir(names: &[SubdirName], text: &str) -> bool
    ensures { result ≡ has_text names.now text.now }
{
    for name in names {
        if name.as_str() == text {
            return true;
        }
    }
    false
}

// The first piece of a text, and what stands behind its `,`, if it has one.
fn cut(text: &str) -> (&str, Option<&str>)
    ensures pieces { pieces text.now ≡ result.0.now ∷ pieces_left result.1 }
    ensures shorter { size_left result.1 ≤ length text.now }
{
    match text.split_once(',') {
        Some((piece, rest)) => (piece, Some(rest)),
        None => (text, None),
    }
}
