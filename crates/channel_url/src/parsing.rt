//! What `url` reads.

ghost use Rattle.std.specs.Prelude.{◌≡◌, IfOk};
ghost use Rattle.std.specs.String.{string_bytes};
ghost use Rattle.gateway_words.specs.Reading.{Gives};
ghost use Rattle.link_io.specs.Address.{url_fault_of};
ghost use Rattle.channel_url.specs.Addresses.{short_text, parts_or_fault, parts_of, joined, is_slashed, slashed};

use link_io::{MOST_OF_ADDRESS, UrlFault, UrlRefusal};
use std::alloc::{AllocError, Global};
use url::{ParseError, Url};

// A text of at most 2,048 bytes.
pub(crate) fn short_text(text: &str) -> Result<&str, UrlRefusal>
    ensures { Gives (λ text. text.now) url_fault_of result (short_text text.now) }
{
    if text.len() > MOST_OF_ADDRESS {
        return Err(UrlRefusal::Fault(UrlFault::TooLong));
    }
    Ok(text)
}

// What a text is by itself.
pub(crate) fn parsed(alloc: Global, text: &str) -> Result<Url, UrlRefusal>
    ensures { Gives (λ url. url) url_fault_of result (parts_or_fault (parts_of text.now)) }
{
    match Url::parse(alloc, text) {
        Ok(url) => Ok(url),
        Err(ParseError::OutOfMemory | ParseError::Overflow) => Err(UrlRefusal::Memory),
        Err(_) => Err(UrlRefusal::Fault(UrlFault::Url)),
    }
}

// What a text is that is joined to an address.
pub(crate) fn joined(alloc: Global, address: &str, text: &str) -> Result<Url, UrlRefusal>
    ensures { Gives (λ url. url) url_fault_of result
        (parts_or_fault (joined address.now text.now)) }
{
    let base = parsed(alloc, address)?;
    match base.join(text) {
        Ok(url) => Ok(url),
        Err(ParseError::OutOfMemory | ParseError::Overflow) => Err(UrlRefusal::Memory),
        Err(_) => Err(UrlRefusal::Fault(UrlFault::Url)),
    }
}

// The text with a `/` at its end.
pub(crate) fn slashed(alloc: Global, text: &str) -> Result<String, AllocError>
    ensures { IfOk result (λ whole. string_bytes whole ≡ slashed text.now) }
{
    let mut whole = String::from_str(alloc, text)?;
    if !is_slashed(text) {
        whole.push('/')?;
    }
    Ok(whole)
}

// Whether a text ends in `/`.
pub(crate) fn is_slashed(text: &str) -> bool
    ensures { result ≡ is_slashed text.now }
{
    text.ends_with('/')
}
