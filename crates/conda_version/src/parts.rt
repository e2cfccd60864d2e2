//! A text cut into the parts of a version, and the faults of these parts.

ghost use Rattle.std.specs.Prelude.{◌≡◌, ◌^◌, ◌<◌, ◌≤◌, IfNone, IfSome, [], ◌∷◌, false, not};
ghost use Rattle.std.specs.Char.{is_ascii_digit};
ghost use Rattle.std.specs.List.{list_any};
ghost use Rattle.conda_version.specs.Grammar.{ends_in_underscore, epoch_run, has_empty, has_empty_local, has_plus, has_two, if_there, is_no_number, is_wide_part};
ghost use Rattle.byte_text.specs.Text.{text_of};
ghost use Rattle.conda_version.specs.Version.{number};
ghost use Rattle.byte_text.specs.Decimal.{digit_zero, with_digit};

use crate::cursor::{cuts, is_underscore, number};
use byte_text::cut_at;

// The parts of a text that may be a version: what stands before its first `!`, from there to the
// next `+`, and behind that.
#[derive(Clone, Copy)]
pub(crate) struct Cut<'a> {
    pub(crate) epoch: Option<&'a [u8]>,
    pub(crate) main: &'a [u8],
    pub(crate) local: Option<&'a [u8]>,
}

impl<'a> Cut<'a> {
    ghost use Rattle.conda_version.specs.Meaning.{parts_in};
    ghost use Rattle.conda_version.specs.Grammar.{has_empty_part, is_twice, is_wide, parts, parts_behind};

    // The parts of a text.
    pub(crate) fn of(text: &'a [u8]) -> Cut<'a>
        ensures { parts_in result ≡ parts text.now }
    {
        match cut_at(b'!', text) {
            None => Cut::behind(None, text),
            Some((epoch, body)) => Cut::behind(Some(epoch), body),
        }
    }

    // The parts with this epoch in front of them.
    fn behind(epoch: Option<&'a [u8]>, body: &'a [u8]) -> Cut<'a>
        ensures { parts_in result ≡ parts_behind (text_of epoch.entry) body.now }
    {
        match cut_at(b'+', body) {
            None => Cut {
                epoch,
                main: body,
                local: None,
            },
            Some((main, local)) => Cut {
                epoch,
                main,
                local: Some(local),
            },
        }
    }

    // Whether there are two `!` or two `+`, or a `+` before the `!`.
    pub(crate) fn is_twice(self, text: &[u8]) -> bool
        ensures { result ≡ is_twice text.now (parts_in self.entry) }
    {
        has_two(b'!', text) || has_two(b'+', text) || self.epoch.is_some_and(has_plus)
    }

    // Whether there is an epoch that isn't one or more digits.
    pub(crate) fn has_bad_epoch(self) -> bool
        ensures { result ≡ if_there is_no_number (text_of self.entry.epoch) }
    {
        self.epoch.is_some_and(is_no_number)
    }

    // Whether a component has nothing in it.
    pub(crate) fn has_empty_part(self) -> bool
        ensures { result ≡ has_empty_part (parts_in self.entry) }
    {
        has_empty(self.main) || self.local.is_some_and(has_empty_local)
    }

    // Whether a run of digits is above 2^128 - 1.
    pub(crate) fn is_wide(self) -> bool
        ensures { result ≡ is_wide (parts_in self.entry) }
    {
        self.epoch.is_some_and(is_wide_part)
            || is_wide_part(self.main)
            || self.local.is_some_and(is_wide_part)
    }
}

// Whether a byte stands twice in a text.
fn has_two(mark: u8, text: &[u8]) -> bool
    ensures { result ≡ has_two mark text.now }
{
    text.iter().filter(|b| **b == mark).count() > 1
}

fn has_plus(part: &[u8]) -> bool
    ensures { result ≡ has_plus part.now }
{
    part.iter().any(|b| *b == b'+')
}

// Whether a part isn't one or more digits.
fn is_no_number(part: &[u8]) -> bool
    ensures { result ≡ is_no_number part.now }
{
    part.is_empty() || has_other(part)
}

// Whether a byte is no digit.
fn has_other(part: &[u8]) -> bool
    ensures { result ≡ list_any (λ b. not (is_ascii_digit b)) part.now }
{
    part.iter().any(|b| !b.is_ascii_digit())
}

// Whether a component has no bytes.
fn has_empty(part: &[u8]) -> bool
    ensures { result ≡ has_empty part.now }
{
    let mut begun = false;
    let mut rest = part;
    'bytes: while let [byte, tail @ ..] = rest {
        if !cuts(*byte, tail) {
            begun = true;
        } else if begun {
            begun = false;
        } else {
            return true;
        }
        rest = tail;
    }
    !begun
}

fn has_empty_local(part: &[u8]) -> bool
    ensures { result ≡ has_empty_local part.now }
{
    has_empty(part) || ends_in_underscore(part)
}

fn ends_in_underscore(part: &[u8]) -> bool
    ensures { result ≡ ends_in_underscore part.now }
{
    match part {
        [.., last] => is_underscore(*last),
        [] => false,
    }
}

// Whether a run of digits is above 2^128 - 1.
fn is_wide_part(part: &[u8]) -> bool
    ensures { result ≡ is_wide_part part.now }
{
    let mut value = 0u128;
    let mut rest = part;
    'bytes: while let [byte, tail @ ..] = rest {
        if byte.is_ascii_digit() {
            let Some(longer) = with_digit(value, *byte) else {
                return true;
            };
            value = longer;
        } else {
            value = 0;
        }
        rest = tail;
    }
    false
}

// A number with one digit more, if that fits.
fn with_digit(value: u128, digit: u8) -> Option<u128>
    requires { digit_zero ≤ digit }
    ensures none { IfNone result (2 ^ 128 ≤ with_digit value digit) }
    ensures some { IfSome result (λ longer.
        (longer ≡ with_digit value digit) × (longer < 2 ^ 128)) }
{
    value.checked_mul(10)?.checked_add(u128::from(digit - b'0'))
}

// The number of an epoch, and 0 where there is none.
pub(crate) fn epoch_number(epoch: Option<&[u8]>) -> u128
    requires digits { if_there is_no_number (text_of epoch) ≡ false }
    requires narrow { if_there is_wide_part (text_of epoch) ≡ false }
    ensures { epoch_run (text_of epoch.entry) ≡ number result ∷ [] }
{
    match epoch {
        Some(part) => number(part).0,
        None => 0,
    }
}
