//! Builds with stars, and which builds they fit.

ghost use Rattle.std.specs.Prelude.{◌≡◌, ◌↔◌, ◌≤◌, ◌&&◌, not, Bool, IsTrue, length};
ghost use Rattle.std.specs.List.{list_all};
ghost use Rattle.byte_text.specs.Text.{text_of};
ghost use Rattle.match_spec.specs.Reading.{is_build};
ghost use Rattle.match_spec.specs.Signs.{is_build_byte};
ghost use Rattle.match_spec.specs.StarBuild.{behind_first, behind_start, fits_build, some_end};

use byte_text::cut_at;

// Whether a text is a build: it has bytes, and each of them may stand in one.
pub(crate) fn is_build(text: &[u8]) -> bool
    ensures { result ≡ is_build text.now }
{
    !text.is_empty() && are_build_bytes(text)
}

fn are_build_bytes(text: &[u8]) -> bool
    ensures { result ≡ list_all is_build_byte text.now }
{
    text.iter().all(|b| is_build_byte(*b))
}

fn is_build_byte(byte: u8) -> bool
    ensures { result ≡ is_build_byte byte }
{
    byte.is_ascii_alphanumeric() || matches!(byte, b'_' | b'-' | b'.' | b'+' | b'*')
}

// Whether a build fits a text, with some text in the place of each `*`.
pub(crate) fn fits_build(build: &[u8], text: &[u8]) -> bool
    ensures { result ≡ fits_build build.now text.now }
{
    let Some((first, rest)) = cut_at(b'*', build) else {
        return build == text;
    };
    match behind_start(first, text) {
        Some(behind) => fits_behind_star(rest, behind),
        None => false,
    }
}

// Whether what stands behind a `*` in a build fits an end of a text.
fn fits_behind_star(build: &[u8], text: &[u8]) -> bool
    ensures { result ≡ some_end (fits_build build.now) text.now }
{
    let mut build = build;
    let mut text = text;
    'stars: while let Some((piece, rest)) = cut_at(b'*', build) {
        let Some(behind) = behind_first(piece, text) else {
            return false;
        };
        build = rest;
        text = behind;
    }
    text.ends_with(build)
}

// What stands behind a piece with which a text begins.
fn behind_start<'a>(piece: &[u8], text: &'a [u8]) -> Option<&'a [u8]>
    ensures { text_of result ≡ behind_start piece.now text.now }
{
    let mut piece = piece;
    let mut rest = text;
    'bytes: while let [wanted, others @ ..] = piece {
        match rest {
            [byte, tail @ ..] if byte == wanted => rest = tail,
            _ => return None,
        }
        piece = others;
    }
    Some(rest)
}

// What stands behind the first place at which a piece stands in a text.
fn behind_first<'a>(piece: &[u8], text: &'a [u8]) -> Option<&'a [u8]>
    ensures { text_of result ≡ behind_first piece.now text.now }
{
    let mut rest = text;
    'bytes: while let [_, tail @ ..] = rest {
        if let Some(behind) = behind_start(piece, rest) {
            return Some(behind);
        }
        rest = tail;
    }
    behind_start(piece, rest)
}
