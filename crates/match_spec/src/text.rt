//! Blanks at the ends of a text, cuts at a byte, and texts that are kept.

ghost use Rattle.std.specs.Prelude.{◌≡◌, ◌+◌, ◌==◌, ◌<◌, ◌≤◌, IfOk, IfSome, false, length, max, position, reverse};
ghost use Rattle.gateway_words.specs.Ascii.{colon};
ghost use Rattle.match_spec.specs.StarBuild.{tail_of};
ghost use Rattle.byte_text.specs.Text.{before_last, begins_at, cut_at, drop_blanks, is_sign, pair_of, sign_len, skip_blanks, text_of};
ghost use Rattle.match_spec.specs.Reading.{before_colons};

use std::alloc::{AllocError, Global};
use std::marker::Model;

// What stands before the last `::`.
pub(crate) fn before_colons(text: &[u8]) -> Option<&[u8]>
    ensures value { text_of result ≡ before_colons text.now }
    ensures within { IfSome result (λ before. length before.now + 2 ≤ length text.now) }
{
    let mut front = text;
    'bytes: while let [before @ .., last] = front {
        if *last == b':' && ends_in_colon(before) {
            return Some(without_last(before));
        }
        front = before;
    }
    None
}

// Whether the last byte is a `:`.
fn ends_in_colon(text: &[u8]) -> bool
    ensures { result ≡ begins_at colon (reverse text.now) }
{
    match text {
        [.., last] => *last == b':',
        [] => false,
    }
}

// The text without its last byte.
fn without_last(text: &[u8]) -> &[u8]
    ensures value { result.now ≡ reverse (tail_of (reverse text.now)) }
    ensures within { length result.now + 1 ≡ max (length text.now) 1 }
{
    match text {
        [front @ .., _] => front,
        [] => text,
    }
}

/// Some bytes in memory of their own. Contracts see the list of them.
#[derive(Debug, Drop)]
pub(crate) struct Bytes {
    items: Vec<u8>,
}

impl Model for Bytes {
    ghost use Rattle.std.specs.Prelude.{List, ℕ};

    ghost Value = { List ℕ };

    ghost view = { λ bytes. bytes.items.items };
}

impl Bytes {
    // A copy of some bytes.
    pub(crate) fn copy(alloc: Global, bytes: &[u8]) -> Result<Bytes, AllocError>
        ensures { IfOk result (λ copy. copy ≡ bytes.now) }
    {
        Ok(Bytes {
            items: bytes.to_vec(alloc)?,
        })
    }

    // The bytes, without a copy.
    pub(crate) fn as_slice(&self) -> &[u8]
        ensures { result.now ≡ self.now }
    {
        self.items.as_slice()
    }
}
