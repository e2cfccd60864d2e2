//! The version and the build behind a name, without the blanks that don't count.

ghost use Rattle.std.specs.Prelude.{◌≡◌, ◌≤◌, IfOk, IfSome, length};
ghost use Rattle.std.specs.List.{list_all};
ghost use Rattle.conda_version.specs.Grammar.{is_version_byte};
ghost use Rattle.conda_version.specs.Leaf.{strip_end, strip_front};
ghost use Rattle.byte_text.specs.Text.{pair_of};
ghost use Rattle.gateway_words.specs.Ascii.{asterisk, equals_sign};
ghost use Rattle.match_spec.specs.Kept.{are_bound, begins_with_mark, blank_at, blanks_stay, bytes_of, ends_in_mark, form_constraint, form_of, is_form_byte, is_form_version, is_operator, is_plain_version, kept as kept_of, last_signs, place_in, place_of_last};
ghost use Rattle.match_spec.specs.Signs.{is_mark};

use byte_text::{cut_at, drop_blanks, is_sign, skip_blanks};
use std::alloc::{AllocError, Global};
use std::marker::Model;

// A byte, and its place among those behind the name.
#[derive(Clone, Copy)]
pub(crate) struct Placed {
    pub(crate) at: usize,
    pub(crate) byte: u8,
}

impl Model for Placed {
    ghost use Rattle.match_spec.specs.Kept.{Placed};

    ghost Value = { Placed };

    ghost view = { λ p. record { at = p.at; byte = p.byte } };

    ghost inverse = { λ p. record { at = p.at; byte = p.byte } };
}

// The bytes of a text that stay, each with its place: without blanks next to `,`, `|`, `(` and `)`
// and behind an operator.
#[tactic(auto, unfolding(crate::specs::Kept::kept))]
pub(crate) fn kept(alloc: Global, text: &[u8]) -> Result<Vec<Placed>, AllocError>
    ensures { IfOk result (λ v. v.items ≡ kept_of text.now) }
{
    let mut kept = Vec::new(alloc);
    let mut at = 0;
    let mut blank = None;
    let mut rest = text;
    'bytes: while let [byte, tail @ ..] = rest {
        blank = blank_at(text, at, blank);
        if blank.unwrap_or(true) {
            kept.push(Placed { at, byte: *byte })?;
        }
        at += 1;
        rest = tail;
    }
    Ok(kept)
}

// Whether the blank at a place stays, where one stands there. Blanks in a row all stay or none, so what
// is known of the one before is taken: each run of blanks is looked at once.
fn blank_at(text: &[u8], n: usize, known: Option<bool>) -> Option<bool>
    requires within { n ≤ length text.now }
    requires known { IfSome known (λ stay. stay ≡ blanks_stay text.now n) }
    ensures { result ≡ blank_at text.now n }
{
    let (_, here) = text.split_at(n);
    if !matches!(here, [b' ', ..]) {
        return None;
    }
    Some(match known {
        Some(stay) => stay,
        None => blanks_stay(text, n),
    })
}

// Whether blanks at a place stay.
fn blanks_stay(text: &[u8], n: usize) -> bool
    requires { n ≤ length text.now }
    ensures { result ≡ blanks_stay text.now n }
{
    let (before, here) = text.split_at(n);
    !are_bound(drop_blanks(before), skip_blanks(here))
}

// Whether blanks between two texts are dropped.
fn are_bound(before: &[u8], after: &[u8]) -> bool
    ensures { result ≡ are_bound before.now after.now }
{
    ends_in_mark(before) || is_operator(last_signs(before)) || begins_with_mark(after)
}

fn ends_in_mark(text: &[u8]) -> bool
    ensures { result ≡ ends_in_mark text.now }
{
    match text {
        [.., last] => is_mark(*last),
        [] => false,
    }
}

fn begins_with_mark(text: &[u8]) -> bool
    ensures { result ≡ begins_with_mark text.now }
{
    match text {
        [first, ..] => is_mark(*first),
        [] => false,
    }
}

fn is_mark(byte: u8) -> bool
    ensures { result ≡ is_mark byte }
{
    matches!(byte, b',' | b'|' | b'(' | b')')
}

// The run of signs with which a text ends.
fn last_signs(text: &[u8]) -> &[u8]
    ensures { result.now ≡ last_signs text.now }
{
    let mut front = text;
    'bytes: while let [before @ .., byte] = front {
        if !is_sign(*byte) {
            break;
        }
        front = before;
    }
    let (_, run) = text.split_at(front.len().min(text.len()));
    run
}

// Whether a run of signs is one of the eight operators.
fn is_operator(run: &[u8]) -> bool
    ensures { result ≡ is_operator run.now }
{
    run == b"==".as_slice()
        || run == b"!=".as_slice()
        || run == b"<=".as_slice()
        || run == b">=".as_slice()
        || run == b"~=".as_slice()
        || run == b"<".as_slice()
        || run == b">".as_slice()
        || run == b"=".as_slice()
}

// The bytes without their places.
pub(crate) fn bytes_of(alloc: Global, kept: &[Placed]) -> Result<Vec<u8>, AllocError>
    ensures { IfOk result (λ v. v.items ≡ bytes_of kept.now) }
{
    kept.iter().map(|p| p.byte).collect(alloc)
}

// The place where the last n bytes that stay begin, or the end of the text where there is none.
pub(crate) fn place_of_last(n: usize, text: &[u8], kept: &[Placed]) -> usize
    requires { kept.now ≡ kept_of text.now }
    ensures value { result ≡ place_of_last n (length text.now) kept.now }
    ensures within { result ≤ length text.now }
{
    let (_, last) = kept.split_at(kept.len().saturating_sub(n));
    place_in(text.len(), last)
}

// The place of the first of some bytes, or the end where there is none.
fn place_in(end: usize, bytes: &[Placed]) -> usize
    ensures { result ≡ place_in end bytes.now }
{
    match bytes {
        [first, ..] => first.at,
        [] => end,
    }
}

// The version and the build of a text of the form `V=B`, `=V=B` or `==V=B`.
pub(crate) fn form_of(text: &[u8]) -> Option<(&[u8], &[u8])>
    ensures { pair_of result ≡ form_of text.now }
{
    let (version, build) = cut_at(b'=', without_equals(without_equals(text)))?;
    if is_form_version(version) && are_form_bytes(build) {
        Some((version, build))
    } else {
        None
    }
}

// The text without a `=` at its front.
fn without_equals(text: &[u8]) -> &[u8]
    ensures { result.now ≡ strip_front equals_sign text.now }
{
    match text {
        [b'=', rest @ ..] => rest,
        _ => text,
    }
}

// Whether a text is the version of the form.
fn is_form_version(text: &[u8]) -> bool
    ensures { result ≡ is_form_version text.now }
{
    text == b"*".as_slice() || is_plain_version(without_star(text))
}

// The text without a `*` at its end.
fn without_star(text: &[u8]) -> &[u8]
    ensures { result.now ≡ strip_end asterisk text.now }
{
    match text {
        [front @ .., b'*'] => front,
        _ => text,
    }
}

// Whether a text begins with a letter or a digit, and goes on with bytes of a version.
fn is_plain_version(text: &[u8]) -> bool
    ensures { result ≡ is_plain_version text.now }
{
    match text {
        [first, rest @ ..] => first.is_ascii_alphanumeric() && are_version_bytes(rest),
        [] => false,
    }
}

fn are_version_bytes(text: &[u8]) -> bool
    ensures { result ≡ list_all is_version_byte text.now }
{
    text.iter().all(|b| is_version_byte(*b))
}

fn is_version_byte(byte: u8) -> bool
    ensures { result ≡ is_version_byte byte }
{
    byte.is_ascii_alphanumeric() || matches!(byte, b'.' | b'_' | b'+' | b'!' | b'-')
}

// Whether no byte is a `=` or a blank.
fn are_form_bytes(text: &[u8]) -> bool
    ensures { result ≡ list_all is_form_byte text.now }
{
    text.iter().all(|b| *b != b'=' && *b != b' ')
}

// The constraint of the form's version: the version itself where it ends in a star, else equality.
pub(crate) fn form_constraint(alloc: Global, version: &[u8]) -> Result<Vec<u8>, AllocError>
    ensures { IfOk result (λ v. v.items ≡ form_constraint version.now) }
{
    if let [.., b'*'] = version {
        return version.to_vec(alloc);
    }
    let mut constraint = b"==".as_slice().to_vec(alloc)?;
    constraint.extend_from_slice(version)?;
    Ok(constraint)
}
