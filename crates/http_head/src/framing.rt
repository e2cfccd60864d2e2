//! How long a reply's body is, by the fields of its head.

ghost use Rattle.std.specs.Prelude.{◌≡◌, ◌+◌, ◌-◌, ◌*◌, ◌^◌, ◌<◌, ◌≤◌, ◌&&◌, true, None, Some, nat_lt, map, length, slice_range, All, option_copied, option_map, IfNone, IfSome, if◌then◌else◌};
ghost use Rattle.std.specs.Char.{is_ascii_digit};
ghost use Rattle.std.specs.List.{list_all};
ghost use Rattle.std.specs.Str.{bytes_eq, str_eq_ignore_ascii_case};
ghost use Rattle.httparse.specs.Spans.{IsHeaderWithin, IsWithin, span_bytes, header_bytes};
ghost use Rattle.http_head.specs.Framing.{agrees, framing_by, framing_found, framing_from, framing_of, found_behind, is_number, is_named, content_length, transfer_encoding};
ghost use Rattle.byte_text.specs.Decimal.{decimal_from};

use crate::reply::{BODY_LIMIT, Frame};
use byte_text::{are_digits, decimal};
use httparse::spans::{HeaderSpan, Span};

/// What the fields of a head say of the body.
#[derive(Clone, Copy, Debug, PartialEq, Eq)]
pub enum Framing {
    /// They are of a form that isn't accepted.
    Bad,
    /// The body is longer than the limit.
    TooLong,
    /// How the body ends.
    Framed(Frame),
}

/// What the fields of a head say.
pub(crate) fn framing_of(buf: &[u8], headers: &[HeaderSpan]) -> Framing
    requires { All (IsHeaderWithin (length buf.now)) headers.now }
    ensures { result ≡ framing_of (map (header_bytes buf.now) headers.now) }
{
    framing_from(buf, headers)
}

// The same, field by field.
fn framing_from(buf: &[u8], headers: &[HeaderSpan]) -> Framing
    requires { All (IsHeaderWithin (length buf.now)) headers.now }
    ensures { result ≡ framing_from None (map (header_bytes buf.now) headers.now) }
{
    let mut found: Option<&[u8]> = None;
    let mut rest = headers;
    'fields: while let [header, tail @ ..] = rest {
        let Some(longer) = found_behind(found, buf, header) else {
            return Framing::Bad;
        };
        found = longer;
        rest = tail;
    }
    framing_found(found)
}

// The length that is found behind one field, unless the field is of a form that isn't accepted.
fn found_behind<'b>(
    found: Option<&'b [u8]>,
    buf: &'b [u8],
    header: &HeaderSpan,
) -> Option<Option<&'b [u8]>>
    requires { IsHeaderWithin (length buf.now) header.now }
    ensures { option_map option_copied result
        ≡ found_behind (option_copied found.entry) (header_bytes buf.now header.now) }
{
    let name = header.name.of(buf);
    if is_named(name, b"transfer-encoding") {
        return None;
    }
    if !is_named(name, b"content-length") {
        return Some(found);
    }
    let value = header.value.of(buf);
    if is_number(value) && agrees(found, value) {
        Some(Some(value))
    } else {
        None
    }
}

// Whether a name is that one, in any case of its letters.
fn is_named(name: &[u8], known: &[u8]) -> bool
    ensures { result ≡ str_eq_ignore_ascii_case name.now known.now }
{
    name.eq_ignore_ascii_case(known)
}

// Whether a length that was found before is the same.
fn agrees(found: Option<&[u8]>, value: &[u8]) -> bool
    ensures { result ≡ agrees (option_copied found.entry) value.now }
{
    match found {
        None => true,
        Some(before) => before == value,
    }
}

// What the length says that was found.
fn framing_found(found: Option<&[u8]>) -> Framing
    ensures { result ≡ framing_found (option_copied found.entry) }
{
    match found {
        None => Framing::Framed(Frame::ToEnd),
        Some(value) => framing_by(value),
    }
}

// What a length says.
fn framing_by(value: &[u8]) -> Framing
    ensures { result ≡ framing_by (decimal_from 0 value.now) }
{
    match decimal(value) {
        Some(length) if length <= BODY_LIMIT => Framing::Framed(Frame::Length(length)),
        _ => Framing::TooLong,
    }
}

// Whether a text is one or more digits.
fn is_number(text: &[u8]) -> bool
    ensures { result ≡ is_number text.now }
{
    !text.is_empty() && are_digits(text)
}
