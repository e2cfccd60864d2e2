//! The name that a `depends` text is about.

ghost use Rattle.std.specs.Prelude.{◌≡◌, ◌≤◌, IfSome, Ok, Some, length};
ghost use Rattle.std.specs.List.{prefix_len};
ghost use Rattle.std.specs.Str.{IsAscii};
ghost use Rattle.conda_name.specs.Dependency.{behind_channel, dependency_name};
ghost use Rattle.byte_text.specs.Text.{skip_blanks, text_of};
ghost use Rattle.conda_name.specs.Name.{is_name_byte, lower_case, name_of};

use crate::name::is_name_byte;
use byte_text::skip_blanks;
use std::str;

/// The name that a `depends` text is about: the longest run of letters, digits, `_`, `-` and `.`
/// behind the last `::` and the blanks that follow it; none where that run is empty.
/// (`docs/FORMATS.md`, "Names".)
pub fn dependency_name(text: &str) -> Option<&str>
    ensures exact { text_of result ≡ dependency_name text.now }
    ensures legal { IfSome result (λ name. name_of name.now ≡ Ok (lower_case name.now)) }
{
    let front = skip_blanks(behind_channel(text.as_bytes()));
    let (run, _) = front.split_at(name_len(front));
    if run.is_empty() {
        return None;
    }
    ascii_text(run)
}

// Some ASCII bytes as text.
fn ascii_text(bytes: &[u8]) -> Option<&str>
    requires { IsAscii bytes.now }
    ensures { text_of result ≡ Some bytes.now }
{
    match str::from_utf8(bytes) {
        Ok(text) => Some(text),
        Err(_) => None,
    }
}

// What stands behind the last `::`, or the whole text.
fn behind_channel(text: &[u8]) -> &[u8]
    ensures { result.now ≡ behind_channel text.now }
{
    let mut found = text;
    let mut rest = text;
    'bytes: while let [_, tail @ ..] = rest {
        if let [b':', b':', behind @ ..] = rest {
            found = behind;
        }
        rest = tail;
    }
    found
}

/// How many letters, digits, `_`, `-` and `.` a text begins with.
#[inline]
pub fn name_len(text: &[u8]) -> usize
    ensures value { result ≡ prefix_len is_name_byte text.now }
    ensures within { result ≤ length text.now }
{
    let mut len = 0;
    let mut rest = text;
    'bytes: while let [byte, tail @ ..] = rest {
        if !is_name_byte(*byte) {
            break;
        }
        len += 1;
        rest = tail;
    }
    len
}
