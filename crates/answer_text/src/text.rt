//! Texts as they are shown.
ghost use Rattle.std.specs.Prelude.{◌≡◌, ◌++◌, length, take, OnOk, OnErr};
ghost use Rattle.answer_text.specs.Text.{shown_byte, shown};

use mp_codec::cut_back;
use std::alloc::AllocError;

/// Appends a text as it is shown: with `?` for each control character below U+0020 and for U+007F.
///
/// At want of memory the vector is as before.
pub fn put_shown(out: &mut Vec<u8>, text: &str) -> Result<(), AllocError>
    ensures ok { OnOk result (out.new.items ≡ out.old.items ++ shown text.now) }
    ensures unchanged { OnErr result (out.new.items ≡ out.old.items) }
{
    let old = out.len();
    let outcome = put_bytes(out, text);
    cut_back(out, old, outcome)
}

// Appends the bytes of a text as they are shown; at want of memory a front of them may stand.
fn put_bytes(out: &mut Vec<u8>, text: &str) -> Result<(), AllocError>
    ensures ok { OnOk result (out.new.items ≡ out.old.items ++ shown text.now) }
    ensures kept { OnErr result (take (length out.old.items) out.new.items ≡ out.old.items) }
{
    for b in text.as_bytes() {
        out.push(shown_byte(*b))?;
    }
    Ok(())
}

fn shown_byte(b: u8) -> u8
    ensures { result ≡ shown_byte b }
{
    if b.is_ascii_control() { b'?' } else { b }
}
