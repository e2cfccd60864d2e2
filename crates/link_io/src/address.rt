//! Addresses.

ghost use Rattle.std.specs.Prelude.{◌≡◌, ◌==◌, ◌≤◌, ◌+◌, ◌++◌, true, None, Some, length, IfOk};
ghost use Rattle.std.specs.List.{list_any, list_all};
ghost use Rattle.gateway_words.specs.Ascii.{commercial_at};
ghost use Rattle.gateway_words.specs.Reading.{Gives};
ghost use Rattle.link_io.specs.Address.{most_of_address, before_slash, behind_scheme, address_fault, address_in, is_address_byte, is_authority, is_place, has_scheme, is_address_form, authority_of, path_of, number_of_fault, url_fault_of};

use mp_codec::Text;
use std::alloc::{AllocError, Global};
use std::cmp::Ordering;
use std::marker::Model;

/// The most bytes of an address.
pub const MOST_OF_ADDRESS: usize = 2048;

// What an address begins with.
const SCHEME: &str = "http://";

/// Why a text is no address.
#[derive(Clone, Copy, Debug, PartialEq, Eq)]
pub enum UrlFault {
    /// It has no authority, no path, a user, or a byte that isn't allowed. Printed as 1.
    Url,
    /// It doesn't begin with `http://`. Printed as 2.
    Scheme,
    /// It has more than 2,048 bytes. Printed as 3.
    TooLong,
}

impl UrlFault {
    /// The number by which the fault is printed.
    pub fn number(self) -> u64
        ensures { result ≡ number_of_fault self }
    {
        match self {
            UrlFault::Url => 1,
            UrlFault::Scheme => 2,
            UrlFault::TooLong => 3,
        }
    }
}

/// Why an address wasn't read.
#[derive(Clone, Copy, Debug, PartialEq, Eq)]
pub enum UrlRefusal {
    /// The text is no address.
    Fault(UrlFault),
    /// Memory ran out.
    Memory,
}

impl From<AllocError> for UrlRefusal {
    ghost use Rattle.std.specs.Prelude.{◌≡◌};
    ghost use Rattle.link_io.specs.declared.address.UrlRefusal.TheVariants as refusal;

    ghost from_gives = { λ _ e. e ≡ refusal.Memory };

    fn from(_: AllocError) -> Self {
        UrlRefusal::Memory
    }
}

/// An address: `http://`, an authority and a path, at most 2,048 bytes of ASCII without blanks, `?`
/// and `#`. Contracts see its text. Addresses are compared by their bytes.
/// (RFC 9112, section 3.2; `docs/FORMATS.md`, "Addresses".)
#[derive(Debug, Drop)]
pub struct HttpUrl {
    text: Text,
}

impl Model for HttpUrl {
    ghost use Rattle.std.specs.Prelude.{◌≡◌, List, ℕ, None};
    ghost use Rattle.link_io.specs.Address.{address_fault};

    ghost Value = { List ℕ };

    ghost view = { λ url. url.text };

    ghost invariant = { λ url. address_fault url.text ≡ None };
}

impl HttpUrl {
    /// The address that a text is.
    ///
    /// `TooLong` where it has more than 2,048 bytes; else `Scheme` where it doesn't begin with
    /// `http://`; else `Url` where what stands before the next `/` is empty or has an `@`, where
    /// there is no such `/`, or where a byte isn't allowed.
    pub fn read(alloc: Global, text: &str) -> Result<HttpUrl, UrlRefusal>
        ensures exact { Gives (λ url. url) url_fault_of result (address_in text.now) }
    {
        if let Some(fault) = fault_of(text) {
            return Err(UrlRefusal::Fault(fault));
        }
        Ok(HttpUrl {
            text: Text::copy(alloc, text)?,
        })
    }

    /// A copy.
    pub fn copy(&self, alloc: Global) -> Result<HttpUrl, AllocError>
        ensures { IfOk result (λ url. url ≡ self.now) }
    {
        Ok(HttpUrl {
            text: Text::copy(alloc, self.text.as_str())?,
        })
    }

    /// The text, which is an address.
    pub fn as_str(&self) -> &str
        ensures value { result.now ≡ self.now }
        ensures valid { address_fault self.now ≡ None }
    {
        self.text.as_str()
    }

    /// What stands behind the scheme before the next `/`: a host, with a port where one is named.
    pub fn authority(&self) -> &str
        ensures { result.now ≡ authority_of self.now }
    {
        before_slash(behind_scheme(self.text.as_str()))
    }

    /// What stands behind the authority: a `/` and what follows it.
    pub fn path(&self) -> &str
        ensures { result.now ≡ path_of self.now }
    {
        let place = behind_scheme(self.text.as_str());
        place.strip_prefix(before_slash(place)).unwrap_or("")
    }

    /// The address with more behind it.
    #[tactic(auto, using(crate::proofs::AddressLemmas::address_grows))]
    pub fn followed_by(&self, alloc: Global, more: &str) -> Result<HttpUrl, AllocError>
        requires bytes { list_all is_address_byte more.now ≡ true }
        requires fits { length self.now + length more.now ≤ most_of_address }
        ensures { IfOk result (λ url. url ≡ self.now ++ more.now) }
    {
        let mut whole = String::from_str(alloc, self.text.as_str())?;
        whole.push_str(more)?;
        Ok(HttpUrl {
            text: Text::copy(alloc, whole.as_str())?,
        })
    }
}

impl PartialEq for HttpUrl {
    ghost use Rattle.std.specs.Prelude.{nat_eq};
    ghost use Rattle.std.specs.Cmp.Lexicographic.{pointwise};
    ghost use Rattle.std.specs.Cmp.Rules.{comparing};
    ghost use Rattle.std.proofs.Common.{rules};

    ghost eq = { pointwise nat_eq };

    ghost laws = { Prim.search (comparing, rules) };

    fn eq(&self, other: &HttpUrl) -> bool {
        self.text.as_str() == other.text.as_str()
    }
}

impl Eq for HttpUrl {
    ghost use Rattle.std.specs.Cmp.Rules.{comparing};
    ghost use Rattle.std.proofs.Common.{rules};

    ghost laws = { Prim.search (comparing, rules) };
}

impl PartialOrd for HttpUrl {
    ghost use Rattle.std.specs.Ordering.{nat_cmp, as_partial_cmp};
    ghost use Rattle.std.specs.Cmp.{partial_order_from_own_ties};
    ghost use Rattle.std.specs.Cmp.Lexicographic.{slice_cmp};
    ghost use Rattle.std.specs.Cmp.Rules.{comparing};
    ghost use Rattle.std.proofs.Common.{rules};

    ghost partial_cmp = { as_partial_cmp (slice_cmp nat_cmp) };

    ghost laws = { partial_order_from_own_ties (Prim.search (comparing, rules)) (Prim.search (comparing, rules)) };

    fn partial_cmp(&self, other: &HttpUrl) -> Option<Ordering> {
        Some(self.cmp(other))
    }
}

impl Ord for HttpUrl {
    ghost use Rattle.std.specs.Ordering.{nat_cmp};
    ghost use Rattle.std.specs.Cmp.Lexicographic.{slice_cmp};
    ghost use Rattle.std.specs.Cmp.Rules.{comparing};
    ghost use Rattle.std.proofs.Common.{rules};

    ghost cmp = { slice_cmp nat_cmp };

    ghost total = { Prim.search (comparing, rules) };

    ghost matches_partial_cmp = { Prim.search (comparing, rules) };

    ghost matches_eq = { Prim.search (comparing, rules) };

    fn cmp(&self, other: &HttpUrl) -> Ordering {
        self.text.as_str().cmp(other.text.as_str())
    }
}

/// Whether a text has the form of an address, whatever its length.
pub fn has_address_form(text: &str) -> bool
    ensures { result ≡ is_address_form text.now }
{
    has_scheme(text) && is_place(behind_scheme(text))
}

// What is wrong with a text as an address.
fn fault_of(text: &str) -> Option<UrlFault>
    ensures { result ≡ address_fault text.now }
{
    if text.len() > MOST_OF_ADDRESS {
        return Some(UrlFault::TooLong);
    }
    if !has_scheme(text) {
        return Some(UrlFault::Scheme);
    }
    if !is_place(behind_scheme(text)) {
        return Some(UrlFault::Url);
    }
    None
}

// Whether a text begins as an address does.
fn has_scheme(text: &str) -> bool
    ensures { result ≡ has_scheme text.now }
{
    text.starts_with(SCHEME)
}

// What stands behind the scheme of an address.
fn behind_scheme(text: &str) -> &str
    requires { has_scheme text.now ≡ true }
    ensures { result.now ≡ behind_scheme text.now }
{
    text.strip_prefix(SCHEME).unwrap_or("")
}

// What stands before the first `/`.
fn before_slash(text: &str) -> &str
    ensures { result.now ≡ before_slash text.now }
{
    match text.split_once('/') {
        Some((before, _)) => before,
        None => text,
    }
}

// Whether what stands behind the scheme is an authority and a path.
fn is_place(text: &str) -> bool
    ensures { result ≡ is_place text.now }
{
    let authority = before_slash(text);
    is_authority(authority.as_bytes())
        && authority.len() < text.len()
        && are_address_bytes(text.as_bytes())
}

// Whether an authority isn't empty and has no user.
fn is_authority(text: &[u8]) -> bool
    ensures { result ≡ is_authority text.now }
{
    !text.is_empty() && !has_user(text)
}

fn has_user(text: &[u8]) -> bool
    ensures { result ≡ list_any (λ b. b == commercial_at) text.now }
{
    text.iter().any(|b| *b == b'@')
}

fn are_address_bytes(text: &[u8]) -> bool
    ensures { result ≡ list_all is_address_byte text.now }
{
    text.iter().all(|b| is_address_byte(*b))
}

fn is_address_byte(b: u8) -> bool
    ensures { result ≡ is_address_byte b }
{
    matches!(b, 0x21..=0x7e) && b != b'?' && b != b'#'
}

#[cfg(test)]
mod tests {
    use super::*;
    use std::test::Fail;

    // Texts, and the number of the fault of each; 0 is none.
    const READ: [(&str, u64); 34] = [
        ("http://h/", 0),
        ("http://conda.example.org/conda-forge/noarch/", 0),
        ("http://h:8080/a/b", 0),
        ("http://[::1]:80/", 0),
        ("http://127.0.0.1/x", 0),
        ("http://h//", 0),
        ("http://h/%2e%2e/%00", 0),
        ("http://h/a@b:c", 0),
        ("http://h/!$&'()*+,;=~[]{}|\\^`\"<>", 0),
        ("http://H/A", 0),
        // It begins otherwise.
        ("", 2),
        ("h", 2),
        ("http:/h/", 2),
        ("http:h/", 2),
        ("https://h/", 2),
        ("HTTP://h/", 2),
        (" http://h/", 2),
        ("ftp://h/", 2),
        ("//h/", 2),
        ("/a", 2),
        // No authority, no path, a user.
        ("http://", 1),
        ("http:///", 1),
        ("http:///a", 1),
        ("http://h", 1),
        ("http://h:80", 1),
        ("http://@h/", 1),
        ("http://u@h/", 1),
        ("http://u:p@h/a", 1),
        // Bytes that aren't allowed.
        ("http://h/?", 1),
        ("http://h/a?b=c", 1),
        ("http://h/#", 1),
        ("http://h/a b", 1),
        ("http://h\t/", 1),
        ("http://h/\u{e9}", 1),
    ];

    // Addresses, with their authorities and paths.
    const PARTS: [(&str, &str, &str); 4] = [
        ("http://h/", "h", "/"),
        ("http://h:81/a/b", "h:81", "/a/b"),
        ("http://[::1]:8//", "[::1]:8", "//"),
        ("http://a.b/c@d:e/", "a.b", "/c@d:e/"),
    ];

    // The number of the fault of a text, or 0.
    fn fault(alloc: Global, text: &str) -> Result<u64, Fail> {
        match HttpUrl::read(alloc, text) {
            Ok(_) => Ok(0),
            Err(UrlRefusal::Fault(fault)) => Ok(fault.number()),
            Err(UrlRefusal::Memory) => Err("memory ran out".into()),
        }
    }

    #[test]
    fn reads_addresses_and_refuses_other_texts(rt: HostRuntime) -> Result<(), Fail> {
        for (text, number) in READ {
            assert_eq!(rt; fault(rt.alloc(), text)?, number, "{text}");
        }
        Ok(())
    }

    #[test]
    fn an_address_has_2048_bytes_at_most(rt: HostRuntime) -> Result<(), Fail> {
        let mut text = String::from_str(rt.alloc(), "http://h/")?;
        for _ in 9..2048 {
            text.push('a')?;
        }
        assert_eq!(rt; fault(rt.alloc(), text.as_str())?, 0);
        text.push('a')?;
        assert_eq!(rt; fault(rt.alloc(), text.as_str())?, 3);
        // So long a text is refused for its length, whatever else is wrong with it.
        text.push(' ')?;
        assert_eq!(rt; fault(rt.alloc(), text.as_str())?, 3);
        Ok(())
    }

    #[test]
    fn an_address_has_an_authority_and_a_path(rt: HostRuntime) -> Result<(), Fail> {
        for (text, authority, path) in PARTS {
            let url = HttpUrl::read(rt.alloc(), text)
                .ok()
                .ok_or("it is an address")?;
            assert_eq!(rt; url.authority(), authority);
            assert_eq!(rt; url.path(), path);
            assert_eq!(rt; url.copy(rt.alloc())?.as_str(), text);
        }
        Ok(())
    }
}
