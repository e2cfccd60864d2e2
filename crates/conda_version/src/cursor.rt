//! A cursor over a part of a version: a number, the word behind it, and what follows.

ghost use Rattle.std.specs.Prelude.{◌≡◌, ◌&&◌, ◌≤◌, length, not, true};
ghost use Rattle.conda_version.specs.Cursor.{after_digits, after_step, at_end, behind, number_from, word_at, word_len};
ghost use Rattle.conda_version.specs.Grammar.{is_narrow};
ghost use Rattle.byte_text.specs.Text.{is_nil};
ghost use Rattle.conda_version.specs.Version.{cuts, folded, is_underscore};

// The number at the front of a text and what stands behind its digits.
pub(crate) fn number(text: &[u8]) -> (u128, &[u8])
    requires { is_narrow text.now ≡ true }
    ensures value { result.0 ≡ number_from 0 text.now }
    ensures rest { result.1.now ≡ after_digits text.now }
    ensures narrow { is_narrow result.1.now ≡ true }
{
    let mut value = 0u128;
    let mut rest = text;
    'digits: while let [byte, tail @ ..] = rest {
        if !byte.is_ascii_digit() {
            break;
        }
        value = value * 10 + u128::from(*byte - b'0');
        rest = tail;
    }
    (value, rest)
}

// A letter in lower case, and `-` as `_`.
pub(crate) fn folded(byte: u8) -> u8
    ensures { result ≡ folded byte }
{
    if byte == b'-' {
        b'_'
    } else {
        byte.to_ascii_lowercase()
    }
}

// A `_`, also as `-`.
pub(crate) fn is_underscore(byte: u8) -> bool
    ensures { result ≡ is_underscore byte }
{
    byte == b'_' || byte == b'-'
}

// Whether a byte with this rest behind it ends a component.
pub(crate) fn cuts(byte: u8, rest: &[u8]) -> bool
    ensures { result ≡ cuts byte rest.now }
{
    byte == b'.' || is_underscore(byte) && !rest.is_empty()
}

// How many bytes stand before a digit, the component's end or the part's.
pub(crate) fn word_len(text: &[u8]) -> usize
    ensures value { result ≡ word_len text.now }
    ensures within { result ≤ length text.now }
{
    let mut len = 0;
    let mut rest = text;
    'bytes: while let [byte, tail @ ..] = rest {
        if byte.is_ascii_digit() || cuts(*byte, tail) {
            break;
        }
        len += 1;
        rest = tail;
    }
    len
}

// A number, the word behind it, and what follows in the part.
#[derive(Clone, Copy)]
pub(crate) struct Step<'a> {
    pub(crate) number: u128,
    pub(crate) word: &'a [u8],
    pub(crate) rest: &'a [u8],
}

// The next number and word of a part.
pub(crate) fn next_step(part: &[u8]) -> Step<'_>
    requires { is_narrow part.now ≡ true }
    ensures number { result.number ≡ number_from 0 part.now }
    ensures word { result.word.now ≡ word_at (after_digits part.now) }
    ensures rest { result.rest.now ≡ after_step part.now }
    ensures narrow { is_narrow result.rest.now ≡ true }
{
    let (number, behind) = number(part);
    let (word, rest) = behind.split_at(word_len(behind));
    Step { number, word, rest }
}

// Whether a component ends before these bytes.
pub(crate) fn at_end(part: &[u8]) -> bool
    ensures { result ≡ at_end part.now }
{
    match part {
        [] => true,
        [byte, rest @ ..] => cuts(*byte, rest),
    }
}

// What stands behind the byte at the front.
pub(crate) fn behind(part: &[u8]) -> &[u8]
    ensures { result.now ≡ behind part.now }
{
    match part {
        [] => part,
        [_, rest @ ..] => rest,
    }
}

// Whether a component ends in both parts.
pub(crate) fn both_at_end(a: &[u8], b: &[u8]) -> bool
    ensures { result ≡ (at_end a.now && at_end b.now) }
{
    at_end(a) && at_end(b)
}

// Whether both parts have ended.
pub(crate) fn both_empty(a: &[u8], b: &[u8]) -> bool
    ensures { result ≡ (is_nil a.now && is_nil b.now) }
{
    a.is_empty() && b.is_empty()
}

// Whether a component ends in both parts, and more follows in the second.
pub(crate) fn both_go_on(a: &[u8], b: &[u8]) -> bool
    ensures { result ≡ (not (is_nil b.now) && (at_end a.now && at_end b.now)) }
{
    !b.is_empty() && both_at_end(a, b)
}
