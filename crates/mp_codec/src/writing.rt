//! Writing values by their shortest spellings, behind what a vector holds.

ghost use Rattle.std.specs.Prelude.{◌≡◌, ◌<◌, ◌≤◌, ◌^◌, ◌++◌, length, take, vec_len, OnOk, OnErr};
ghost use Rattle.mp_codec.specs.Writing.{
  uint_bytes,
  str_head,
  bin_head,
  array_head,
  map_head,
  str_bytes,
  bin_bytes,
};

use std::alloc::AllocError;

/// Appends a number.
///
/// At want of memory the vector is as before. (MessagePack specification, "int format family".)
pub fn put_uint(out: &mut Vec<u8>, n: u64) -> Result<(), AllocError>
    ensures ok { OnOk result (out.new.items ≡ out.old.items ++ uint_bytes n) }
    ensures unchanged { OnErr result (out.new.items ≡ out.old.items) }
{
    if n < 0x80 {
        out.extend_from_slice(&[n as u8])
    } else if n < 0x100 {
        out.extend_from_slice(&[0xcc, n as u8])
    } else if n < 0x1_0000 {
        let [a, b] = (n as u16).to_be_bytes();
        out.extend_from_slice(&[0xcd, a, b])
    } else if n < 0x1_0000_0000 {
        let [a, b, c, d] = (n as u32).to_be_bytes();
        out.extend_from_slice(&[0xce, a, b, c, d])
    } else {
        let [a, b, c, d, e, f, g, h] = n.to_be_bytes();
        out.extend_from_slice(&[0xcf, a, b, c, d, e, f, g, h])
    }
}

/// Appends a str.
///
/// At want of memory the vector is as before. (MessagePack specification, "str format family".)
pub fn put_str(out: &mut Vec<u8>, s: &str) -> Result<(), AllocError>
    requires { length s.now < 2 ^ 32 }
    ensures ok { OnOk result (out.new.items ≡ out.old.items ++ str_bytes s.now) }
    ensures unchanged { OnErr result (out.new.items ≡ out.old.items) }
{
    let old = out.len();
    put_str_head(out, s.len() as u32)?;
    put_payload(out, old, s.as_bytes())
}

/// Appends a bin.
///
/// At want of memory the vector is as before. (MessagePack specification, "bin format family".)
pub fn put_bin(out: &mut Vec<u8>, b: &[u8]) -> Result<(), AllocError>
    requires { length b.now < 2 ^ 32 }
    ensures ok { OnOk result (out.new.items ≡ out.old.items ++ bin_bytes b.now) }
    ensures unchanged { OnErr result (out.new.items ≡ out.old.items) }
{
    let old = out.len();
    put_bin_head(out, b.len() as u32)?;
    put_payload(out, old, b)
}

/// Appends the head of an array of so many elements, which have to follow.
///
/// At want of memory the vector is as before. (MessagePack specification, "array format family".)
pub fn put_array(out: &mut Vec<u8>, n: u32) -> Result<(), AllocError>
    ensures ok { OnOk result (out.new.items ≡ out.old.items ++ array_head n) }
    ensures unchanged { OnErr result (out.new.items ≡ out.old.items) }
{
    if n < 16 {
        out.extend_from_slice(&[0x90 + n as u8])
    } else if n < 0x1_0000 {
        let [a, b] = (n as u16).to_be_bytes();
        out.extend_from_slice(&[0xdc, a, b])
    } else {
        let [a, b, c, d] = n.to_be_bytes();
        out.extend_from_slice(&[0xdd, a, b, c, d])
    }
}

/// Appends the head of a map of so many pairs, which have to follow.
///
/// At want of memory the vector is as before. (MessagePack specification, "map format family".)
pub fn put_map(out: &mut Vec<u8>, n: u32) -> Result<(), AllocError>
    ensures ok { OnOk result (out.new.items ≡ out.old.items ++ map_head n) }
    ensures unchanged { OnErr result (out.new.items ≡ out.old.items) }
{
    if n < 16 {
        out.extend_from_slice(&[0x80 + n as u8])
    } else if n < 0x1_0000 {
        let [a, b] = (n as u16).to_be_bytes();
        out.extend_from_slice(&[0xde, a, b])
    } else {
        let [a, b, c, d] = n.to_be_bytes();
        out.extend_from_slice(&[0xdf, a, b, c, d])
    }
}

// Appends the head of a str.
fn put_str_head(out: &mut Vec<u8>, n: u32) -> Result<(), AllocError>
    ensures ok { OnOk result (out.new.items ≡ out.old.items ++ str_head n) }
    ensures unchanged { OnErr result (out.new.items ≡ out.old.items) }
{
    if n < 32 {
        out.extend_from_slice(&[0xa0 + n as u8])
    } else if n < 0x100 {
        out.extend_from_slice(&[0xd9, n as u8])
    } else if n < 0x1_0000 {
        let [a, b] = (n as u16).to_be_bytes();
        out.extend_from_slice(&[0xda, a, b])
    } else {
        let [a, b, c, d] = n.to_be_bytes();
        out.extend_from_slice(&[0xdb, a, b, c, d])
    }
}

// Appends the head of a bin.
fn put_bin_head(out: &mut Vec<u8>, n: u32) -> Result<(), AllocError>
    ensures ok { OnOk result (out.new.items ≡ out.old.items ++ bin_head n) }
    ensures unchanged { OnErr result (out.new.items ≡ out.old.items) }
{
    if n < 0x100 {
        out.extend_from_slice(&[0xc4, n as u8])
    } else if n < 0x1_0000 {
        let [a, b] = (n as u16).to_be_bytes();
        out.extend_from_slice(&[0xc5, a, b])
    } else {
        let [a, b, c, d] = n.to_be_bytes();
        out.extend_from_slice(&[0xc6, a, b, c, d])
    }
}

// Appends a payload behind its head, or cuts the vector back to its length before the head.
fn put_payload(out: &mut Vec<u8>, old: usize, payload: &[u8]) -> Result<(), AllocError>
    requires { old ≤ vec_len out.old }
    ensures ok { OnOk result (out.new.items ≡ out.old.items ++ payload.now) }
    ensures cut { OnErr result (out.new.items ≡ take old out.old.items) }
{
    match out.extend_from_slice(payload) {
        Ok(()) => Ok(()),
        Err(error) => {
            out.truncate(old);
            Err(error)
        }
    }
}

/// The outcome of several writers in a row, which began when the vector had this length. Where one
/// failed, the vector is cut back to that length.
pub fn cut_back(
    out: &mut Vec<u8>,
    old: usize,
    outcome: Result<(), AllocError>,
) -> Result<(), AllocError>
    requires { old ≤ vec_len out.old }
    ensures same { result ≡ outcome }
    ensures ok { OnOk outcome (out.new.items ≡ out.old.items) }
    ensures cut { OnErr outcome (out.new.items ≡ take old out.old.items) }
{
    if outcome.is_err() {
        out.truncate(old);
    }
    outcome
}
