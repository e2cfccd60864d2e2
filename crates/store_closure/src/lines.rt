//! The lines of an input.

ghost use Rattle.std.specs.Prelude.{◌≡◌, ◌==◌, ◌∷◌, ◌<◌, [], None, length, nat_lt, IfNone, IfSome};
ghost use Rattle.std.specs.Str.Lines.{strip_carriage_return};
ghost use Rattle.std.specs.List.{position};
ghost use Rattle.gateway_words.specs.Ascii.{newline};
ghost use Rattle.store_closure.specs.Lines.{input_lines};

use byte_text::find;

/// The first line of an input, and what stands behind it; None where there is no line.
pub(crate) fn next_line(bytes: &[u8]) -> Option<(&[u8], &[u8])>
    ensures none { IfNone result (input_lines bytes.now ≡ []) }
    ensures some { IfSome result (λ p. input_lines bytes.now ≡ p.0.now ∷ input_lines p.1.now) }
    ensures shorter { IfSome result (λ p. length p.1.now < length bytes.now) }
{
    match find(b'\n', bytes) {
        Some(at) => Some((without_return(&bytes[..at]), &bytes[at + 1..])),
        None => last_line(bytes),
    }
}

// The line of an input without a newline, and nothing behind it; None where there is no byte.
fn last_line(bytes: &[u8]) -> Option<(&[u8], &[u8])>
    requires { position (λ b. b == newline) bytes.now ≡ None }
    ensures none { IfNone result (input_lines bytes.now ≡ []) }
    ensures some { IfSome result (λ p. input_lines bytes.now ≡ p.0.now ∷ input_lines p.1.now) }
    ensures shorter { IfSome result (λ p. length p.1.now < length bytes.now) }
{
    if bytes.is_empty() {
        return None;
    }
    Some((bytes, &[]))
}

// A line without the carriage return at its end.
fn without_return(line: &[u8]) -> &[u8]
    ensures { result.now ≡ strip_carriage_return line.now }
{
    match line {
        [front @ .., b'\r'] => front,
        _ => line,
    }
}

/// Whether an input has more lines than this.
pub fn has_more_lines(bytes: &[u8], most: u64) -> bool
    ensures { result ≡ nat_lt most (length (input_lines bytes.now)) }
{
    let mut left = bytes;
    let mut free = most;
    'lines: while let Some((_, rest)) = next_line(left) {
        if free == 0 {
            return true;
        }
        free -= 1;
        left = rest;
    }
    false
}
