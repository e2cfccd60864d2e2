//! The bases of channels and of shards.

ghost use Rattle.std.specs.Prelude.{◌≡◌, ◌≤◌};
ghost use Rattle.gateway_words.specs.Reading.{Gives};
ghost use Rattle.link_io.specs.Address.{most_of_address, url_fault_of};
ghost use Rattle.channel_url.specs.Addresses.{channel_base, shards_base, base_by, base_in, has_more};

use crate::parsing::{joined, parsed, short_text, slashed};
use link_io::{HttpUrl, UrlFault, UrlRefusal, has_address_form};
use std::alloc::Global;
use url::Url;

/// The most bytes of a channel's base: an index's address, which is made of it, is then never too long.
pub const MOST_OF_CHANNEL_BASE: usize = 1900;

/// The most bytes of a base of shards: a shard's address, which is made of it, is then never too long.
pub const MOST_OF_SHARDS_BASE: usize = 1976;

/// The base of a channel that a text is: the text as `url` reads and writes it, with a `/` at its end.
///
/// `TooLong` where the text has more than 2,048 bytes; else `Url` where `url` has no reading; else
/// `Scheme` where the scheme isn't `http`; else `Url` where there is a query, a fragment, a user or a
/// password, or where the form is none of an address; else `TooLong` where the base has more than
/// 1,900 bytes. (The URL Standard, "URL parsing"; `docs/FORMATS.md`, "Addresses".)
pub fn channel_base(alloc: Global, text: &str) -> Result<HttpUrl, UrlRefusal>
    ensures { Gives (λ url. url) url_fault_of result (channel_base text.now) }
{
    let text = short_text(text)?;
    let url = parsed(alloc, text)?;
    base_by(alloc, &url, MOST_OF_CHANNEL_BASE)
}

/// The base of the shards of the index at an address: a text that is joined to that address, with a
/// `/` at its end.
///
/// Refuses as `channel_base` does, the last time where the base has more than 1,976 bytes.
pub fn shards_base(alloc: Global, index: &HttpUrl, text: &str) -> Result<HttpUrl, UrlRefusal>
    ensures { Gives (λ url. url) url_fault_of result (shards_base index.now text.now) }
{
    let text = short_text(text)?;
    let url = joined(alloc, index.as_str(), text)?;
    base_by(alloc, &url, MOST_OF_SHARDS_BASE)
}

// What was read as a base of at most so many bytes.
fn base_by(alloc: Global, url: &Url, most: usize) -> Result<HttpUrl, UrlRefusal>
    requires { most ≤ most_of_address }
    ensures { Gives (λ url. url) url_fault_of result (base_by most url.now) }
{
    if url.scheme() != "http" {
        return Err(UrlRefusal::Fault(UrlFault::Scheme));
    }
    if has_more(url) {
        return Err(UrlRefusal::Fault(UrlFault::Url));
    }
    let text = slashed(alloc, url.as_str())?;
    base_in(alloc, text.as_str(), most)
}

// Whether there is a query, a fragment, a user or a password.
fn has_more(url: &Url) -> bool
    ensures { result ≡ has_more url.now }
{
    url.query().is_some()
        || url.fragment().is_some()
        || !url.username().is_empty()
        || url.password().is_some()
}

// A text as a base of at most so many bytes.
fn base_in(alloc: Global, text: &str, most: usize) -> Result<HttpUrl, UrlRefusal>
    requires { most ≤ most_of_address }
    ensures { Gives (λ url. url) url_fault_of result (base_in most text.now) }
{
    if !has_address_form(text) {
        return Err(UrlRefusal::Fault(UrlFault::Url));
    }
    if text.len() > most {
        return Err(UrlRefusal::Fault(UrlFault::TooLong));
    }
    HttpUrl::read(alloc, text)
}
