//! Digests of the standard's examples, their texts, and bodies that are taken in and refused.

use crate::{Body, Digest};
use std::cmp::Ordering;
use std::test::Fail;

// The digests of no bytes and of `abc`; the second is in the examples of FIPS 180-4.
const OF_NOTHING: &str = "e3b0c44298fc1c149afbf4c8996fb92427ae41e4649b934ca495991b7852b855";

const OF_ABC: &str = "ba7816bf8f01cfea414140de5dae2223b00361a396177a9cb410ff61f20015ad";

// The standard's example of two blocks, and its digest.
const TWO_BLOCKS: &str = "abcdbcdecdefdefgefghfghighijhijkijkljklmklmnlmnomnopnopq";

const OF_TWO_BLOCKS: &str = "248d6a61d20638b8e5c026930c3e6039a33ce45964ff2167f6ecedd419db06c1";

#[test]
fn prints_digests_behind_what_stands(rt: HostRuntime) -> Result<(), Fail> {
    for (message, text) in [
        ("", OF_NOTHING),
        ("abc", OF_ABC),
        (TWO_BLOCKS, OF_TWO_BLOCKS),
    ] {
        let mut out = b"sha256 ".to_vec(rt.alloc())?;
        Digest::of(message.as_bytes()).put_hex(&mut out)?;
        let mut expected = b"sha256 ".to_vec(rt.alloc())?;
        expected.extend_from_slice(text.as_bytes())?;
        assert!(rt; out == expected, "the digest of {message}");
    }
    Ok(())
}

#[test]
fn reads_64_digits_of_either_case(rt: HostRuntime) {
    let digest = Some(Digest::of(b"abc"));
    for (what, text, expected) in [
        ("lower case", OF_ABC, digest),
        (
            "upper case",
            "BA7816BF8F01CFEA414140DE5DAE2223B00361A396177A9CB410FF61F20015AD",
            digest,
        ),
        (
            "both cases",
            "Ba7816Bf8F01CfeA414140de5daE2223b00361a396177A9cB410ff61f20015aD",
            digest,
        ),
        ("no digits", "", None),
        (
            "63 digits",
            "ba7816bf8f01cfea414140de5dae2223b00361a396177a9cb410ff61f20015a",
            None,
        ),
        (
            "65 digits",
            "ba7816bf8f01cfea414140de5dae2223b00361a396177a9cb410ff61f20015ad0",
            None,
        ),
        ("32 digits", "ba7816bf8f01cfea414140de5dae2223", None),
        (
            "128 digits",
            "ba7816bf8f01cfea414140de5dae2223b00361a396177a9cb410ff61f20015adba7816bf8f01cfea414140de5dae2223b00361a396177a9cb410ff61f20015ad",
            None,
        ),
        (
            "a blank in front",
            " ba7816bf8f01cfea414140de5dae2223b00361a396177a9cb410ff61f20015a",
            None,
        ),
        (
            "a newline behind",
            "ba7816bf8f01cfea414140de5dae2223b00361a396177a9cb410ff61f20015a\n",
            None,
        ),
        (
            "a g first",
            "ga7816bf8f01cfea414140de5dae2223b00361a396177a9cb410ff61f20015ad",
            None,
        ),
        (
            "a G last",
            "ba7816bf8f01cfea414140de5dae2223b00361a396177a9cb410ff61f20015aG",
            None,
        ),
        (
            "the byte below 0",
            "ba7816bf8f01cfea414140de5dae222/b00361a396177a9cb410ff61f20015ad",
            None,
        ),
        (
            "the byte above 9",
            "ba7816bf8f01cfea414140de5dae2223:00361a396177a9cb410ff61f20015ad",
            None,
        ),
        (
            "the byte below A",
            "b@7816bf8f01cfea414140de5dae2223b00361a396177a9cb410ff61f20015ad",
            None,
        ),
        (
            "the byte below a",
            "ba7816bf8f01cfea414140de5dae2223b00361a396177a9cb410ff61f20015`d",
            None,
        ),
        (
            "64 bytes, the last two no ASCII",
            "ba7816bf8f01cfea414140de5dae2223b00361a396177a9cb410ff61f20015é",
            None,
        ),
        (
            "64 characters, the last no ASCII",
            "ba7816bf8f01cfea414140de5dae2223b00361a396177a9cb410ff61f20015aé",
            None,
        ),
    ] {
        assert!(rt; Digest::from_hex(text) == expected, "{what}");
    }
}

#[test]
fn takes_bytes_of_the_wanted_digest(rt: HostRuntime) -> Result<(), Fail> {
    let want = Digest::from_hex(OF_ABC).ok_or("the text is a digest")?;
    let body = Body::check(b"abc".to_vec(rt.alloc())?, want)
        .ok()
        .ok_or("this is the digest of these bytes")?;
    assert!(rt; body.digest() == want);
    assert!(rt; body.bytes() == b"abc".as_slice());
    assert!(rt; body.into_bytes().as_slice() == b"abc".as_slice());
    Ok(())
}

#[test]
fn refuses_bytes_of_another_digest(rt: HostRuntime) -> Result<(), Fail> {
    let nothing = Digest::from_hex(OF_NOTHING).ok_or("the text is a digest")?;
    let mut near = Digest::of(b"abc");
    near.0[31] ^= 1;
    for want in [nothing, near] {
        let refusal = Body::check(b"abc".to_vec(rt.alloc())?, want)
            .err()
            .ok_or("this is not the digest of these bytes")?;
        assert!(rt; refusal.want == want);
        assert!(rt; Some(refusal.got) == Digest::from_hex(OF_ABC));
        assert!(rt; refusal.bytes.as_slice() == b"abc".as_slice());
    }
    Ok(())
}

#[test]
fn orders_digests_by_their_bytes(rt: HostRuntime) {
    let mut low = Digest([0; 32]);
    let mut high = Digest([0; 32]);
    assert!(rt; low.cmp(&high) == Ordering::Equal);
    high.0[31] = 1;
    assert!(rt; low < high);
    low.0[0] = 255;
    high.0[0] = 127;
    assert!(rt; high < low);
}
