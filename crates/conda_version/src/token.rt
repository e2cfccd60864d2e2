//! The tokens of a constraint's text, one after the other.

ghost use Rattle.std.specs.Prelude.{◌≡◌, ◌+◌, ◌<◌, ◌≤◌, ◌^◌, IfSome, drop, length, take};
ghost use Rattle.conda_version.specs.Cursor.{leaf_len};

use byte_text::skip_blanks;

// A leaf's text, with the blanks behind it, or one of the four signs between leaves.
#[derive(Clone, Copy)]
pub(crate) enum Piece<'a> {
    Leaf(&'a [u8]),
    Left,
    Right,
    And,
    Or,
}

// A token with its place, and what follows it.
#[derive(Clone, Copy)]
pub(crate) struct Found<'a> {
    pub(crate) at: usize,
    pub(crate) piece: Piece<'a>,
    pub(crate) behind: usize,
    pub(crate) rest: &'a [u8],
}

impl<'a> Found<'a> {
    ghost use Rattle.conda_version.specs.Seen.{IsFollowed, found_tokens, token_in};
    ghost use Rattle.conda_version.specs.Token.{leaf, tokens_from};
    ghost use Rattle.std.specs.Prelude.{None, Some, false};
    ghost use Rattle.byte_text.specs.Text.{begins_at};
    ghost use Rattle.gateway_words.specs.Ascii.{space};

    // The next token of some bytes that begin at a place, between leaves.
    pub(crate) fn next(at: usize, text: &'a [u8]) -> Option<Found<'a>>
        requires { at + length text.now < 2 ^ 64 }
        ensures value { found_tokens result ≡ tokens_from None at text.now }
        ensures followed { IfSome result (IsFollowed at text.now) }
    {
        let front = skip_blanks(text);
        Found::here(at + (text.len() - front.len()), front)
    }

    // The token with which some bytes begin, that don't begin with a blank.
    fn here(at: usize, text: &'a [u8]) -> Option<Found<'a>>
        requires fits { at + length text.now < 2 ^ 64 }
        requires begun { begins_at space text.now ≡ false }
        ensures value { found_tokens result ≡ tokens_from None at text.now }
        ensures followed { IfSome result (IsFollowed at text.now) }
    {
        let [byte, rest @ ..] = text else {
            return None;
        };
        match Piece::sign(*byte) {
            Some(piece) => Some(Found {
                at,
                piece,
                behind: at + 1,
                rest,
            }),
            None => Some(Found::leaf(at, text)),
        }
    }

    // The leaf with which some bytes begin.
    fn leaf(at: usize, text: &'a [u8]) -> Found<'a>
        requires { at + length text.now < 2 ^ 64 }
        ensures at { result.at ≡ at }
        ensures piece { token_in result.piece ≡ leaf (take (leaf_len text.now) text.now) }
        ensures behind { result.behind ≡ at + leaf_len text.now }
        ensures rest { result.rest.now ≡ drop (leaf_len text.now) text.now }
    {
        let len = leaf_len(text);
        let (leaf, rest) = text.split_at(len);
        Found {
            at,
            piece: Piece::Leaf(leaf),
            behind: at + len,
            rest,
        }
    }
}

impl<'a> Piece<'a> {
    ghost use Rattle.conda_version.specs.Constraint.{ends_item};
    ghost use Rattle.conda_version.specs.Seen.{piece_seen, token_in};
    ghost use Rattle.conda_version.specs.Token.{sign_of};

    // The sign that a byte is, if it is one.
    fn sign(byte: u8) -> Option<Piece<'a>>
        ensures { piece_seen result ≡ sign_of byte }
    {
        match byte {
            b'(' => Some(Piece::Left),
            b')' => Some(Piece::Right),
            b',' => Some(Piece::And),
            b'|' => Some(Piece::Or),
            _ => None,
        }
    }

    // Whether the token ends an item.
    pub(crate) fn ends_item(self) -> bool
        ensures { result ≡ ends_item (token_in self.entry) }
    {
        match self {
            Piece::Leaf(_) | Piece::Right => true,
            Piece::Left | Piece::And | Piece::Or => false,
        }
    }
}

// How many bytes stand before the next sign, or the end.
fn leaf_len(text: &[u8]) -> usize
    ensures value { result ≡ leaf_len text.now }
    ensures within { result ≤ length text.now }
{
    let mut len = 0;
    let mut rest = text;
    'bytes: while let [byte, tail @ ..] = rest {
        if Piece::sign(*byte).is_some() {
            break;
        }
        len += 1;
        rest = tail;
    }
    len
}
