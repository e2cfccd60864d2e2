//! What a value begins with: its first byte, and the bytes behind it that belong to its head.

ghost use Rattle.std.specs.Prelude.{◌≡◌, ◌≤◌, ◌<◌, ◌^◌, ◌+◌, pos, true, length, Ok, Some, IfOk, IfSome};
ghost use Rattle.mp_codec.specs.declared.head.Head.{Head};
ghost use Rattle.mp_codec.specs.Format.{big_endian, form, is_width, is_readable, is_readable_form, head_behind, head_of_form, head_at, node_size, part_count, payload_len};

use crate::fault::FaultKind;

/// The head of a value: the format's family, with the number, the length or the number of parts.
#[derive(Clone, Copy, Debug, PartialEq, Eq)]
pub enum Head {
    /// nil.
    Nil,
    /// false or true.
    Bool(bool),
    /// A whole number, from -2^63 to 2^64 - 1.
    Int(i128),
    /// A float of four or eight bytes, which aren't read.
    Float,
    /// A str, and the bytes of its payload.
    Str(u32),
    /// A bin, and the bytes of its payload.
    Bin(u32),
    /// An array, and the number of its elements.
    Array(u32),
    /// A map, and the number of its pairs.
    Map(u32),
    /// An ext, and the bytes of its payload; its type byte belongs to the head.
    Ext(u32),
}

// What the first byte says of its head.
#[derive(Clone, Copy)]
enum Form {
    // The byte is the whole head.
    Whole(Head),
    // The byte is never used.
    Never,
    // So many bytes behind it belong to the head, and this is how they are read.
    Followed(usize, Behind),
}

// How the bytes behind a first byte are read.
#[derive(Clone, Copy)]
enum Behind {
    // The length of a str.
    Str,
    // The length of a bin.
    Bin,
    // The number of elements of an array.
    Array,
    // The number of pairs of a map.
    Map,
    // The length of an ext, and its type byte.
    Ext,
    // The type byte of an ext of this length.
    Type(u32),
    // A float, which isn't read.
    Float,
    // A number without a sign.
    Unsigned,
    // A number in two's complement, negative from this value on.
    Signed(u64),
}

// The number that one, two, four or eight bytes spell.
#[inline(always)]
fn number(bytes: &[u8]) -> u64
    requires { is_width (length bytes.now) ≡ true }
    ensures value { result ≡ big_endian bytes.now }
    ensures small { result < 256 ^ length bytes.now }
{
    match bytes {
        [a] => u64::from(*a),
        [a, b] => u64::from(u16::from_be_bytes([*a, *b])),
        [a, b, c, d] => u64::from(u32::from_be_bytes([*a, *b, *c, *d])),
        [a, b, c, d, e, f, g, h] => u64::from_be_bytes([*a, *b, *c, *d, *e, *f, *g, *h]),
        _ => unreachable!(),
    }
}

// The head that the bytes behind its first byte give.
#[inline(always)]
fn head_of(behind: Behind, bytes: &[u8]) -> Head
    requires { is_readable behind (length bytes.now) ≡ true }
    ensures { result ≡ head_behind behind bytes.now }
{
    match behind {
        Behind::Str => Head::Str(number(bytes) as u32),
        Behind::Bin => Head::Bin(number(bytes) as u32),
        Behind::Array => Head::Array(number(bytes) as u32),
        Behind::Map => Head::Map(number(bytes) as u32),
        Behind::Ext => Head::Ext(number(&bytes[..bytes.len() - 1]) as u32),
        Behind::Type(len) => Head::Ext(len),
        Behind::Float => Head::Float,
        Behind::Unsigned => Head::Int(i128::from(number(bytes))),
        Behind::Signed(half) => {
            let value = number(bytes);
            if value < half {
                Head::Int(i128::from(value))
            } else {
                Head::Int(i128::from(value) - 2 * i128::from(half))
            }
        }
    }
}

// The head at the front of some bytes, and how many bytes it takes.
#[inline(always)]
#[tactic(auto, unfolding(crate::specs::Format::head_at))]
pub(crate) fn head_in(bytes: &[u8]) -> Result<(Head, usize), FaultKind>
    ensures exact { result ≡ head_at bytes.now }
    ensures within { IfOk result (λ taken. taken.1 ≤ length bytes.now) }
{
    match bytes {
        [first, rest @ ..] => head_by_first_byte(*first, rest),
        [] => Err(FaultKind::Short),
    }
}

// How many values are in the map or the array that stands at the front, where its head is one byte.
#[inline(always)]
#[tactic(auto, unfolding(crate::specs::Format::form, crate::specs::Format::head_at))]
pub(crate) fn short_parts_in(bytes: &[u8]) -> Option<u64>
    ensures exact { IfSome result (λ parts. node_size (head_at bytes.now) ≡ Some (1, parts)) }
    ensures within { IfSome result (λ parts. 1 ≤ length bytes.now) }
{
    match bytes {
        [first @ 0x80..=0x8f, ..] => Some(2 * u64::from(*first - 0x80)),
        [first @ 0x90..=0x9f, ..] => Some(u64::from(*first - 0x90)),
        _ => None,
    }
}

// The length of a str and that of its head, where a head of one or two bytes stands at the front.
// Most texts have such a head, and no value of `Head` has to be made of it.
#[inline(always)]
#[tactic(auto, unfolding(crate::specs::Format::form, crate::specs::Format::head_at))]
pub(crate) fn short_str_in(bytes: &[u8]) -> Option<(u8, u8)>
    ensures { IfSome result (λ s. head_at bytes.now ≡ Ok (Head.Str s.0, s.1)) }
{
    let (first, rest) = bytes.split_first()?;
    match *first {
        first @ 0xa0..=0xbf => Some((first - 0xa0, 1)),
        0xd9 => match rest {
            [len, ..] => Some((*len, 2)),
            [] => None,
        },
        _ => None,
    }
}

// The number without a sign that stands at the front, and how many bytes it takes. Most numbers are
// such, and no value of `Head` has to be made of them.
#[inline(always)]
#[tactic(auto, unfolding(crate::specs::Format::form, crate::specs::Format::head_at))]
pub(crate) fn unsigned_in(bytes: &[u8]) -> Option<(u64, usize)>
    ensures exact { IfSome result (λ n. head_at bytes.now ≡ Ok (Head.Int (pos n.0), n.1)) }
    ensures within { IfSome result (λ n. n.1 ≤ length bytes.now) }
{
    match bytes {
        [first @ 0x00..=0x7f, ..] => Some((u64::from(*first), 1)),
        [0xcc, a, ..] => Some((u64::from(*a), 2)),
        [0xcd, a, b, ..] => Some((u64::from(u16::from_be_bytes([*a, *b])), 3)),
        [0xce, a, b, c, d, ..] => Some((u64::from(u32::from_be_bytes([*a, *b, *c, *d])), 5)),
        [0xcf, a, b, c, d, e, f, g, h, ..] => {
            Some((u64::from_be_bytes([*a, *b, *c, *d, *e, *f, *g, *h]), 9))
        }
        _ => None,
    }
}

// The head that begins with this byte, where these bytes stand behind it, and how many bytes it
// takes. Each form is a constant where it is read, so that code is made for it alone.
#[inline(always)]
#[tactic(auto, unfolding(crate::specs::Format::form))]
fn head_by_first_byte(first: u8, rest: &[u8]) -> Result<(Head, usize), FaultKind>
    ensures exact { result ≡ head_of_form (form first) rest.now }
    ensures within { IfOk result (λ taken. taken.1 ≤ length rest.now + 1) }
{
    match first {
        0x00..=0x7f => Form::Whole(Head::Int(i128::from(first))).head(rest),
        0x80..=0x8f => Form::Whole(Head::Map(u32::from(first - 0x80))).head(rest),
        0x90..=0x9f => Form::Whole(Head::Array(u32::from(first - 0x90))).head(rest),
        0xa0..=0xbf => Form::Whole(Head::Str(u32::from(first - 0xa0))).head(rest),
        0xc0 => Form::Whole(Head::Nil).head(rest),
        0xc1 => Form::Never.head(rest),
        0xc2 => Form::Whole(Head::Bool(false)).head(rest),
        0xc3 => Form::Whole(Head::Bool(true)).head(rest),
        0xc4 => Form::Followed(1, Behind::Bin).head(rest),
        0xc5 => Form::Followed(2, Behind::Bin).head(rest),
        0xc6 => Form::Followed(4, Behind::Bin).head(rest),
        0xc7 => Form::Followed(2, Behind::Ext).head(rest),
        0xc8 => Form::Followed(3, Behind::Ext).head(rest),
        0xc9 => Form::Followed(5, Behind::Ext).head(rest),
        0xca => Form::Followed(4, Behind::Float).head(rest),
        0xcb => Form::Followed(8, Behind::Float).head(rest),
        0xcc => Form::Followed(1, Behind::Unsigned).head(rest),
        0xcd => Form::Followed(2, Behind::Unsigned).head(rest),
        0xce => Form::Followed(4, Behind::Unsigned).head(rest),
        0xcf => Form::Followed(8, Behind::Unsigned).head(rest),
        0xd0 => Form::Followed(1, Behind::Signed(1 << 7)).head(rest),
        0xd1 => Form::Followed(2, Behind::Signed(1 << 15)).head(rest),
        0xd2 => Form::Followed(4, Behind::Signed(1 << 31)).head(rest),
        0xd3 => Form::Followed(8, Behind::Signed(1 << 63)).head(rest),
        0xd4 => Form::Followed(1, Behind::Type(1)).head(rest),
        0xd5 => Form::Followed(1, Behind::Type(2)).head(rest),
        0xd6 => Form::Followed(1, Behind::Type(4)).head(rest),
        0xd7 => Form::Followed(1, Behind::Type(8)).head(rest),
        0xd8 => Form::Followed(1, Behind::Type(16)).head(rest),
        0xd9 => Form::Followed(1, Behind::Str).head(rest),
        0xda => Form::Followed(2, Behind::Str).head(rest),
        0xdb => Form::Followed(4, Behind::Str).head(rest),
        0xdc => Form::Followed(2, Behind::Array).head(rest),
        0xdd => Form::Followed(4, Behind::Array).head(rest),
        0xde => Form::Followed(2, Behind::Map).head(rest),
        0xdf => Form::Followed(4, Behind::Map).head(rest),
        0xe0..=0xff => Form::Whole(Head::Int(i128::from(first) - 0x100)).head(rest),
    }
}

impl Form {
    // The head of this form with these bytes behind its first one, and how many bytes it takes.
    #[inline(always)]
    fn head(self, rest: &[u8]) -> Result<(Head, usize), FaultKind>
        requires { is_readable_form self ≡ true }
        ensures exact { result ≡ head_of_form self rest.now }
        ensures within { IfOk result (λ taken. taken.1 ≤ length rest.now + 1) }
    {
        match self {
            Form::Whole(head) => Ok((head, 1)),
            Form::Never => Err(FaultKind::Reserved),
            Form::Followed(len, behind) => {
                if rest.len() < len {
                    return Err(FaultKind::Short);
                }
                Ok((head_of(behind, &rest[..len]), len + 1))
            }
        }
    }
}

impl Head {
    // How many bytes of payload the head claims.
    #[inline(always)]
    pub(crate) fn payload_len(self) -> u32
        ensures { result ≡ payload_len self }
    {
        match self {
            Head::Str(len) | Head::Bin(len) | Head::Ext(len) => len,
            Head::Nil
            | Head::Bool(_)
            | Head::Int(_)
            | Head::Float
            | Head::Array(_)
            | Head::Map(_) => 0,
        }
    }

    // How many values the head claims.
    #[inline(always)]
    pub(crate) fn part_count(self) -> u64
        ensures { result ≡ part_count self }
    {
        match self {
            Head::Array(count) => u64::from(count),
            Head::Map(count) => 2 * u64::from(count),
            Head::Nil | Head::Bool(_) | Head::Int(_) | Head::Float => 0,
            Head::Str(_) | Head::Bin(_) | Head::Ext(_) => 0,
        }
    }
}
