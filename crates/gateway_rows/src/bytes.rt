//! Bytes that are written as hexadecimal digits.
ghost use Rattle.std.specs.Prelude.{◌≡◌, ◌⊎◌, IfOk, IfErr};
ghost use Rattle.hex.specs.declared.error.FromHexError.TheVariants.{OutOfMemory};
ghost use Rattle.gateway_rows.specs.Bytes.{is_blank, digits_of, bytes_of};

use hex::FromHexError;
use std::alloc::{AllocError, Global};

/// The bytes that a text of hexadecimal digits, in either case, and blanks spells. Blanks are
/// spaces and newlines, and may stand anywhere.
///
/// `OutOfMemory` where the memory isn't there. `OddLength` where a last digit stands alone.
/// `InvalidHexCharacter` where another character stands, with its place among all but the blanks.
pub fn bytes_of(alloc: Global, text: &str) -> Result<Vec<u8>, FromHexError>
    ensures ok { IfOk result (λ bytes. bytes_of text.now ≡ Ok bytes.items) }
    ensures err { IfErr result (λ e. (e ≡ OutOfMemory) ⊎ (bytes_of text.now ≡ Err e)) }
{
    let digits = digits_of(alloc, text)?;
    hex::decode(alloc, digits.as_slice())
}

// A text without its blanks.
fn digits_of(alloc: Global, text: &str) -> Result<Vec<u8>, AllocError>
    ensures { IfOk result (λ digits. digits.items ≡ digits_of text.now) }
{
    let mut digits = Vec::new(alloc);
    for byte in text.as_bytes() {
        if !is_blank(*byte) {
            digits.push(*byte)?;
        }
    }
    Ok(digits)
}

// Whether a byte is a space or a newline.
fn is_blank(byte: u8) -> bool
    ensures { result ≡ is_blank byte }
{
    byte == b' ' || byte == b'\n'
}
