//! The words of a command line.
ghost use Rattle.std.specs.Prelude.{◌≡◌, true, Some, None, IfOk, IfSome, IsErrOf};
ghost use Rattle.channel_store.specs.Names.{is_place};
ghost use Rattle.std.specs.Option.{option_copied};
ghost use Rattle.gateway_tool.specs.Words.{is_option, spec_word, place_word, show_words, index_words, shown_spec};
ghost use Rattle.gateway_tool.specs.Command.{command_of};
ghost use Rattle.gateway_tool.specs.Meant.{meant, HasPlace, TakesMemory};

use channel_store::is_place;
use match_spec::{Spec, SpecRefusal};
use mp_codec::Text;
use std::alloc::Global;
use store_closure::{OptionsRefusal, StoreRequests, closure_words};

// Why words were not read.
#[derive(Clone, Copy, Debug)]
pub(crate) enum WordsRefusal {
    // They are not those of the command.
    Usage,
    // Memory ran out.
    Memory,
}

// What words ask for.
#[derive(Drop)]
pub(crate) enum Command<'a> {
    // The records that a spec matches, of the shard that the input is.
    Show(Spec),
    // That a place be indexed.
    Index(&'a str),
    // The answers to requests, of channels of the store.
    Closure(StoreRequests),
}

// What the words ask for.
pub(crate) fn command_of(alloc: Global, words: &[Text]) -> Result<Command<'_>, WordsRefusal>
    ensures found { IfOk result (λ command. command_of words.now ≡ Some (meant command)) }
    ensures place { IfOk result HasPlace }
    ensures usage { IsErrOf result WordsRefusal.Usage → command_of words.now ≡ None }
    // No memory is taken for a place.
    ensures memory { IsErrOf result WordsRefusal.Memory
        → IfSome (command_of words.now) TakesMemory }
{
    let [name, words @ ..] = words else {
        return Err(WordsRefusal::Usage);
    };
    if name.as_str() == "show" {
        return Ok(Command::Show(show_words(alloc, words)?));
    }
    if name.as_str() == "index" {
        return match index_words(words) {
            Some(place) => Ok(Command::Index(place)),
            None => Err(WordsRefusal::Usage),
        };
    }
    if name.as_str() == "closure" {
        return match closure_words(alloc, words) {
            Ok(asked) => Ok(Command::Closure(asked)),
            Err(OptionsRefusal::Usage) => Err(WordsRefusal::Usage),
            Err(OptionsRefusal::Memory) => Err(WordsRefusal::Memory),
        };
    }
    Err(WordsRefusal::Usage)
}

// The spec whose records the words ask for.
pub(crate) fn shown_spec(alloc: Global, words: &[Text]) -> Result<Spec, WordsRefusal>
    ensures found { IfOk result (λ spec. shown_spec words.now ≡ Some spec) }
    ensures usage { IsErrOf result WordsRefusal.Usage → shown_spec words.now ≡ None }
{
    match words {
        [name, words @ ..] if name.as_str() == "show" => show_words(alloc, words),
        _ => Err(WordsRefusal::Usage),
    }
}

// The spec that the words behind the name of `show` say.
fn show_words(alloc: Global, words: &[Text]) -> Result<Spec, WordsRefusal>
    ensures found { IfOk result (λ spec. show_words words.now ≡ Some spec) }
    ensures usage { IsErrOf result WordsRefusal.Usage → show_words words.now ≡ None }
{
    match words {
        [word] => spec_word(alloc, word.as_str()),
        _ => Err(WordsRefusal::Usage),
    }
}

// The place that the words behind the name of `index` say.
fn index_words(words: &[Text]) -> Option<&str>
    ensures same { option_copied result ≡ index_words words.now }
    ensures place { IfSome result (λ place. is_place place.now ≡ true) }
{
    match words {
        [word] => place_word(word.as_str()),
        _ => None,
    }
}

// The place that a word is.
fn place_word(word: &str) -> Option<&str>
    ensures same { option_copied result ≡ place_word word.now }
    ensures place { IfSome result (λ place. is_place place.now ≡ true) }
{
    if is_option(word) {
        return None;
    }
    if is_place(word) {
        return Some(word);
    }
    None
}

// The spec that a word is.
fn spec_word(alloc: Global, word: &str) -> Result<Spec, WordsRefusal>
    ensures found { IfOk result (λ spec. spec_word word.now ≡ Some spec) }
    ensures usage { IsErrOf result WordsRefusal.Usage → spec_word word.now ≡ None }
{
    if is_option(word) {
        return Err(WordsRefusal::Usage);
    }
    match Spec::read(alloc, word) {
        Ok(spec) => Ok(spec),
        Err(SpecRefusal::Fault(_)) => Err(WordsRefusal::Usage),
        Err(SpecRefusal::Memory) => Err(WordsRefusal::Memory),
    }
}

// Whether a word could be taken for an option.
pub(crate) fn is_option(word: &str) -> bool
    ensures { result ≡ is_option word.now }
{
    word.starts_with('-')
}
