//! The address of a package.

ghost use Rattle.std.specs.Prelude.{◌≡◌, ◌++◌, IfOk};
ghost use Rattle.std.specs.String.{string_bytes};
ghost use Rattle.gateway_words.specs.Reading.{Gives};
ghost use Rattle.link_io.specs.Address.{url_fault_of};
ghost use Rattle.channel_url.specs.Addresses.{package_url};

use crate::parsing::{joined, short_text, slashed};
use link_io::{HttpUrl, UrlRefusal};
use mp_codec::Text;
use std::alloc::Global;

/// The address of a package file: the base of the packages, which is joined to the index's address, of
/// any scheme, with a `/` at its end, and the file's name as it is.
///
/// `TooLong` where the base's text has more than 2,048 bytes; else `Url` where `url` has no reading.
pub fn package_url(
    alloc: Global,
    index: &HttpUrl,
    base_url: &str,
    file: &str,
) -> Result<Text, UrlRefusal>
    ensures { Gives (λ text. text) url_fault_of result
        (package_url index.now base_url.now file.now) }
{
    let base_url = short_text(base_url)?;
    let url = joined(alloc, index.as_str(), base_url)?;
    let mut whole = slashed(alloc, url.as_str())?;
    whole.push_str(file)?;
    Ok(Text::copy(alloc, whole.as_str())?)
}
