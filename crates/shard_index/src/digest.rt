//! Reading the digest of a shard.

ghost use Rattle.std.specs.Prelude.{◌≡◌, true, length};
ghost use Rattle.mp_codec.specs.Reading.{Advances};
ghost use Rattle.mp_codec.specs.Format.{payload_len};
ghost use Rattle.shard_index.specs.Digests.{is_digest_head, digest_of_digits, digest_by_head, digest_from};

use digest_gate::Digest;
use mp_codec::{Cursor, FaultKind, FormatFault, Head, utf8_text};

// The digest that stands at the cursor: a bin of 32 bytes, or a str of 64 hexadecimal digits.
#[tactic(auto, unfolding(crate::specs::Digests::digest_from))]
pub(crate) fn digest(cur: &mut Cursor<'_>) -> Result<Digest, FormatFault>
    ensures { Advances (λ digest. digest) cur.new result (digest_from cur.old) }
{
    let at = cur.at();
    let wrong = FormatFault::new(at, FaultKind::Wrong);
    let head = cur.head()?;
    if !is_digest_head(head) {
        return Err(wrong);
    }
    let payload = cur.take(digest_len(head))?;
    match digest_by_head(head, payload) {
        Some(digest) => Ok(digest),
        None => Err(wrong),
    }
}

// Whether a head begins a digest.
fn is_digest_head(head: Head) -> bool
    ensures { result ≡ is_digest_head head }
{
    match head {
        Head::Bin(len) => len == 32,
        Head::Str(len) => len == 64,
        Head::Nil | Head::Bool(_) | Head::Int(_) | Head::Float => false,
        Head::Array(_) | Head::Map(_) | Head::Ext(_) => false,
    }
}

// The length of the payload behind the head of a digest.
fn digest_len(head: Head) -> u32
    requires { is_digest_head head ≡ true }
    ensures { result ≡ payload_len head }
{
    match head {
        Head::Bin(len) | Head::Str(len) => len,
        Head::Nil | Head::Bool(_) | Head::Int(_) | Head::Float => 0,
        Head::Array(_) | Head::Map(_) | Head::Ext(_) => 0,
    }
}

// The digest that a head and its payload are.
fn digest_by_head(head: Head, payload: &[u8]) -> Option<Digest>
    requires { length payload.now ≡ payload_len head }
    ensures { result ≡ digest_by_head head payload.now }
{
    match head {
        Head::Bin(len) => digest_of_bytes(len, payload),
        Head::Str(_) => digest_of_digits(payload),
        Head::Nil | Head::Bool(_) | Head::Int(_) | Head::Float => None,
        Head::Array(_) | Head::Map(_) | Head::Ext(_) => None,
    }
}

// The bytes as a digest, where they are 32.
fn digest_of_bytes(len: u32, bytes: &[u8]) -> Option<Digest>
    requires { length bytes.now ≡ len }
    ensures { result ≡ digest_by_head (Head.Bin len) bytes.now }
{
    if len != 32 {
        return None;
    }
    let mut array = [0; 32];
    array.copy_from_slice(bytes);
    Some(Digest(array))
}

// The digest whose hexadecimal digits some bytes are.
fn digest_of_digits(bytes: &[u8]) -> Option<Digest>
    ensures { result ≡ digest_of_digits bytes.now }
{
    match utf8_text(bytes) {
        Some(text) => Digest::from_hex(text),
        None => None,
    }
}
