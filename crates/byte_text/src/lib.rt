//! Texts as bytes: blanks at their ends, cuts at a byte, the signs of which operators are made, and
//! decimal numbers.
//! Names, versions, constraints and specs are read with these (docs/FORMATS.md).
#![tactic(auto)]

ghost use Rattle.std.specs.Prelude.{◌≡◌, ◌+◌, ◌-◌, ◌*◌, ◌^◌, ◌==◌, ◌<◌, ◌≤◌, IfNone, IfSome, None, Some, false, if◌then◌else◌, length, nat_lt, position};
ghost use Rattle.gateway_words.specs.Ascii.{space};
ghost use Rattle.byte_text.specs.Decimal.{are_digits, decimal_from};
ghost use Rattle.byte_text.specs.Text.{before_last, begins_at, cut_at, drop_blanks, is_sign, or_nil, pair_of, sign_len, skip_blanks, text_of};

/// The text without the blanks at its front.
#[inline]
pub fn skip_blanks(mut text: &[u8]) -> &[u8]
    ensures value { result.now ≡ skip_blanks text.now }
    ensures begun { begins_at space result.now ≡ false }
    ensures within { length result.now ≤ length text.now }
{
    while let [b' ', rest @ ..] = text {
        text = rest;
    }
    text
}

/// The text without the blanks at its end.
#[inline]
pub fn drop_blanks(mut text: &[u8]) -> &[u8]
    ensures value { result.now ≡ drop_blanks text.now }
    ensures within { length result.now ≤ length text.now }
{
    while let [rest @ .., b' '] = text {
        text = rest;
    }
    text
}

/// The place of the first such byte.
#[inline]
pub fn find(mark: u8, text: &[u8]) -> Option<usize>
    ensures value { result ≡ position (λ b. b == mark) text.now }
    ensures within { IfSome result (λ at. at < length text.now) }
{
    text.iter().position(|b| *b == mark)
}

/// What stands before the first such byte and behind it.
#[inline]
pub fn cut_at(mark: u8, text: &[u8]) -> Option<(&[u8], &[u8])>
    ensures { pair_of result ≡ cut_at mark text.now }
{
    match find(mark, text) {
        Some(at) => Some((&text[..at], &text[at + 1..])),
        None => None,
    }
}

/// The part, or no bytes where it is missing.
#[inline]
pub fn or_empty(part: Option<&[u8]>) -> &[u8]
    ensures { result.now ≡ or_nil (text_of part.entry) }
{
    match part {
        Some(part) => part,
        None => &[],
    }
}

/// What stands before the last such byte.
#[inline]
pub fn before_last(mark: u8, text: &[u8]) -> Option<&[u8]>
    ensures value { text_of result ≡ before_last mark text.now }
    ensures within { IfSome result (λ before. length before.now < length text.now) }
{
    let mut front = text;
    'bytes: while let [before @ .., byte] = front {
        if *byte == mark {
            return Some(before);
        }
        front = before;
    }
    None
}

/// Whether operators are made of this byte.
#[inline]
pub fn is_sign(byte: u8) -> bool
    ensures { result ≡ is_sign byte }
{
    matches!(byte, b'<' | b'=' | b'>' | b'!' | b'~')
}

/// How many signs a text begins with.
#[inline]
pub fn sign_len(text: &[u8]) -> usize
    ensures value { result ≡ sign_len text.now }
    ensures within { result ≤ length text.now }
{
    let mut len = 0;
    let mut rest = text;
    'bytes: while let [byte, tail @ ..] = rest {
        if !is_sign(*byte) {
            break;
        }
        len += 1;
        rest = tail;
    }
    len
}

/// Whether each byte is a digit.
#[inline]
pub fn are_digits(text: &[u8]) -> bool
    ensures { result ≡ are_digits text.now }
{
    text.iter().all(|b| b.is_ascii_digit())
}

/// The number that some digits are, if it fits 64 bits.
#[inline]
pub fn decimal(digits: &[u8]) -> Option<u64>
    ensures { result
        ≡ (if nat_lt (decimal_from 0 digits.now) (2 ^ 64)
        then Some (decimal_from 0 digits.now) else None) }
{
    let mut number = 0u64;
    let mut rest = digits;
    'digits: while let [digit, tail @ ..] = rest {
        let Some(longer) = with_digit(number, *digit) else {
            return None;
        };
        number = longer;
        rest = tail;
    }
    Some(number)
}

// A number with one digit more, if that fits.
fn with_digit(number: u64, digit: u8) -> Option<u64>
    ensures none { IfNone result (2 ^ 64 ≤ number * 10 + (digit - 0x30)) }
    ensures some { IfSome result (λ longer.
        (longer ≡ number * 10 + (digit - 0x30)) × (longer < 2 ^ 64)) }
{
    number
        .checked_mul(10)?
        .checked_add(u64::from(digit.saturating_sub(b'0')))
}
