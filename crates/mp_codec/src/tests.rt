//! What the calls give on bytes from outside: the table of the format (MessagePack specification,
//! "Formats") and values that another program wrote. The expected values are worked out by hand
//! from that table.

use crate::cursor::Cursor;
use crate::fault::FaultKind::{NotText, Reserved, Short, Wrong};
use crate::fault::{FaultKind, FormatFault};
use crate::head::Head;
use crate::reading::utf8_text;
use crate::room::room_for;
use crate::span::Span;
use crate::text::Text;
use crate::writing::{put_array, put_bin, put_map, put_str, put_uint};
use std::alloc::{AllocError, Global};
use std::process::Abort;
use std::test::Fail;

const NIL: u8 = 0xc0;

const NEVER_USED: u8 = 0xc1;

// What is wrong, and where.
type Fault = (FaultKind, u64);

fn in_parts<T>(outcome: Result<T, FormatFault>) -> Result<T, Fault> {
    match outcome {
        Ok(value) => Ok(value),
        Err(fault) => Err((fault.kind, fault.at)),
    }
}

// ---- each first byte

// What the format's table puts behind a first byte: the bytes of its length, the number of bytes
// behind these, and the byte that is put there: nil where they are values, and else the one that
// is never used, since nothing may look at it.
fn behind(first: u8) -> (&'static [u8], usize, u8) {
    match first {
        0x00..=0x7f => (&[], 0, NIL),
        0x80..=0x8f => (&[], 2 * (first - 0x80) as usize, NIL),
        0x90..=0x9f => (&[], (first - 0x90) as usize, NIL),
        0xa0..=0xbf => (&[], (first - 0xa0) as usize, NEVER_USED),
        0xc0..=0xc3 => (&[], 0, NIL),
        0xc4 => (&[3], 3, NEVER_USED),
        0xc5 => (&[1, 2], 258, NEVER_USED),
        0xc6 => (&[0, 0, 1, 2], 258, NEVER_USED),
        0xc7 => (&[3], 4, NEVER_USED),
        0xc8 => (&[1, 2], 259, NEVER_USED),
        0xc9 => (&[0, 0, 1, 2], 259, NEVER_USED),
        0xca => (&[], 4, NEVER_USED),
        0xcb => (&[], 8, NEVER_USED),
        0xcc => (&[], 1, NEVER_USED),
        0xcd => (&[], 2, NEVER_USED),
        0xce => (&[], 4, NEVER_USED),
        0xcf => (&[], 8, NEVER_USED),
        0xd0 => (&[], 1, NEVER_USED),
        0xd1 => (&[], 2, NEVER_USED),
        0xd2 => (&[], 4, NEVER_USED),
        0xd3 => (&[], 8, NEVER_USED),
        0xd4 => (&[], 2, NEVER_USED),
        0xd5 => (&[], 3, NEVER_USED),
        0xd6 => (&[], 5, NEVER_USED),
        0xd7 => (&[], 9, NEVER_USED),
        0xd8 => (&[], 17, NEVER_USED),
        0xd9 => (&[3], 3, NEVER_USED),
        0xda => (&[1, 2], 258, NEVER_USED),
        0xdb => (&[0, 0, 1, 2], 258, NEVER_USED),
        0xdc => (&[1, 2], 258, NIL),
        0xdd => (&[0, 0, 1, 2], 258, NIL),
        0xde => (&[1, 2], 516, NIL),
        0xdf => (&[0, 0, 1, 2], 516, NIL),
        0xe0..=0xff => (&[], 0, NIL),
    }
}

// A value with this first byte, as the table says.
fn value_of(alloc: Global, first: u8) -> Result<Vec<u8>, AllocError> {
    let (lengths, count, filler) = behind(first);
    let mut bytes = vec![in alloc; filler; count]?;
    let mut value = vec![in alloc; first]?;
    value.extend_from_slice(lengths)?;
    value.append(&mut bytes)?;
    Ok(value)
}

// Skips what these bytes begin with, which must end so and leave the cursor there.
fn assert_skips(rt: &impl Abort, bytes: &[u8], expected: Result<(), Fault>, at: usize) {
    let mut cursor = Cursor::new(bytes);
    assert_eq!(rt; in_parts(cursor.skip()), expected, "{bytes:?}");
    assert_eq!(rt; cursor.at(), at, "{bytes:?}");
}

// Skips the front of these bytes, up to each place within them.
fn assert_short_at_each_cut(rt: &impl Abort, bytes: &[u8]) {
    for cut in 0..bytes.len() {
        assert_skips(rt, &bytes[..cut], Err((Short, cut as u64)), 0);
    }
}

#[test]
fn each_first_byte_is_skipped_with_what_belongs_to_it(rt: HostRuntime) -> Result<(), Fail> {
    for first in 0x00..=0xff {
        let mut bytes = value_of(rt.alloc(), first)?;
        let len = bytes.len();
        bytes.extend_from_slice(&[NIL, NEVER_USED])?;
        if first == NEVER_USED {
            assert_skips(&rt, &bytes, Err((Reserved, 0)), 0);
        } else {
            assert_skips(&rt, &bytes, Ok(()), len);
        }
    }
    Ok(())
}

#[test]
fn each_first_byte_is_short_at_each_cut(rt: HostRuntime) -> Result<(), Fail> {
    for first in 0x00..=0xff {
        let bytes = value_of(rt.alloc(), first)?;
        assert_short_at_each_cut(&rt, &bytes);
    }
    Ok(())
}

// ---- heads

// The head that these bytes begin with, and the cursor's place behind it.
fn assert_head(rt: &impl Abort, bytes: &[u8], expected: Result<Head, Fault>, at: usize) {
    let mut cursor = Cursor::new(bytes);
    assert_eq!(rt; in_parts(cursor.head()), expected, "{bytes:?}");
    assert_eq!(rt; cursor.at(), at, "{bytes:?}");
}

// The bytes of a number, which are all of its head, and the number.
const NUMBERS: [(&[u8], i128); 34] = [
    (&[0x00], 0),
    (&[0x01], 1),
    (&[0x7f], 127),
    (&[0xff], -1),
    (&[0xfe], -2),
    (&[0xe0], -32),
    (&[0xcc, 0x00], 0),
    (&[0xcc, 0x80], 128),
    (&[0xcc, 0xff], 255),
    (&[0xcd, 0x00, 0x00], 0),
    (&[0xcd, 0x01, 0x02], 258),
    (&[0xcd, 0xff, 0xff], 65_535),
    (&[0xce, 0x00, 0x00, 0x00, 0x00], 0),
    (&[0xce, 0x01, 0x02, 0x03, 0x04], 16_909_060),
    (&[0xce, 0xff, 0xff, 0xff, 0xff], 4_294_967_295),
    (&[0xcf, 0x00, 0x00, 0x00, 0x00, 0x00, 0x00, 0x00, 0x00], 0),
    (
        &[0xcf, 0x01, 0x02, 0x03, 0x04, 0x05, 0x06, 0x07, 0x08],
        72_623_859_790_382_856,
    ),
    (
        &[0xcf, 0x80, 0x00, 0x00, 0x00, 0x00, 0x00, 0x00, 0x00],
        9_223_372_036_854_775_808,
    ),
    (
        &[0xcf, 0xff, 0xff, 0xff, 0xff, 0xff, 0xff, 0xff, 0xff],
        18_446_744_073_709_551_615,
    ),
    (&[0xd0, 0x00], 0),
    (&[0xd0, 0x7f], 127),
    (&[0xd0, 0x80], -128),
    (&[0xd0, 0xff], -1),
    (&[0xd1, 0x7f, 0xff], 32_767),
    (&[0xd1, 0x80, 0x00], -32_768),
    (&[0xd1, 0xff, 0x7f], -129),
    (&[0xd2, 0x7f, 0xff, 0xff, 0xff], 2_147_483_647),
    (&[0xd2, 0x80, 0x00, 0x00, 0x00], -2_147_483_648),
    (&[0xd2, 0xff, 0xff, 0x7f, 0xff], -32_769),
    (&[0xd3, 0x00, 0x00, 0x00, 0x00, 0x00, 0x00, 0x00, 0x00], 0),
    (
        &[0xd3, 0x7f, 0xff, 0xff, 0xff, 0xff, 0xff, 0xff, 0xff],
        9_223_372_036_854_775_807,
    ),
    (
        &[0xd3, 0x80, 0x00, 0x00, 0x00, 0x00, 0x00, 0x00, 0x00],
        -9_223_372_036_854_775_808,
    ),
    (
        &[0xd3, 0xff, 0xff, 0xff, 0xff, 0x7f, 0xff, 0xff, 0xff],
        -2_147_483_649,
    ),
    (&[0xd3, 0xff, 0xff, 0xff, 0xff, 0xff, 0xff, 0xff, 0xff], -1),
];

#[test]
fn heads_of_numbers_have_the_value_that_their_bytes_spell(rt: HostRuntime) {
    for (bytes, number) in NUMBERS {
        assert_head(&rt, bytes, Ok(Head::Int(number)), bytes.len());
    }
}

// The bytes of a head of another family, and the head.
const OTHER_HEADS: [(&[u8], Head); 36] = [
    (&[0xc0], Head::Nil),
    (&[0xc2], Head::Bool(false)),
    (&[0xc3], Head::Bool(true)),
    (&[0xca, 0x3f, 0x80, 0x00, 0x00], Head::Float),
    (
        &[0xcb, 0x3f, 0xf8, 0x00, 0x00, 0x00, 0x00, 0x00, 0x00],
        Head::Float,
    ),
    (&[0xa0], Head::Str(0)),
    (&[0xbf], Head::Str(31)),
    (&[0xd9, 0x00], Head::Str(0)),
    (&[0xd9, 0xff], Head::Str(255)),
    (&[0xda, 0x01, 0x02], Head::Str(258)),
    (&[0xdb, 0x00, 0x00, 0x00, 0x05], Head::Str(5)),
    (&[0xdb, 0xff, 0xff, 0xff, 0xff], Head::Str(4_294_967_295)),
    (&[0xc4, 0x00], Head::Bin(0)),
    (&[0xc4, 0xff], Head::Bin(255)),
    (&[0xc5, 0xff, 0xfe], Head::Bin(65_534)),
    (&[0xc6, 0x01, 0x02, 0x03, 0x04], Head::Bin(16_909_060)),
    (&[0x90], Head::Array(0)),
    (&[0x9f], Head::Array(15)),
    (&[0xdc, 0x00, 0x00], Head::Array(0)),
    (&[0xdc, 0x01, 0x00], Head::Array(256)),
    (&[0xdd, 0x00, 0x00, 0x00, 0x01], Head::Array(1)),
    (&[0xdd, 0xff, 0xff, 0xff, 0xff], Head::Array(4_294_967_295)),
    (&[0x80], Head::Map(0)),
    (&[0x8f], Head::Map(15)),
    (&[0xde, 0x00, 0x03], Head::Map(3)),
    (&[0xde, 0xff, 0xff], Head::Map(65_535)),
    (&[0xdf, 0x00, 0x01, 0x00, 0x00], Head::Map(65_536)),
    (&[0xdf, 0xff, 0xff, 0xff, 0xff], Head::Map(4_294_967_295)),
    (&[0xc7, 0x07, 0xff], Head::Ext(7)),
    (&[0xc8, 0x01, 0x02, 0xff], Head::Ext(258)),
    (&[0xc9, 0x01, 0x02, 0x03, 0x04, 0xff], Head::Ext(16_909_060)),
    (&[0xd4, 0xff], Head::Ext(1)),
    (&[0xd5, 0xff], Head::Ext(2)),
    (&[0xd6, 0xff], Head::Ext(4)),
    (&[0xd7, 0xff], Head::Ext(8)),
    (&[0xd8, 0xff], Head::Ext(16)),
];

#[test]
fn heads_of_other_families_have_their_length_or_count(rt: HostRuntime) {
    for (bytes, head) in OTHER_HEADS {
        assert_head(&rt, bytes, Ok(head), bytes.len());
    }
}

// Bytes that begin with no whole head, and the fault.
const NO_HEADS: [(&[u8], Fault); 9] = [
    (&[], (Short, 0)),
    (&[0xc1, 0x00], (Reserved, 0)),
    (&[0xd9], (Short, 1)),
    (&[0xcd, 0x01], (Short, 2)),
    (&[0xcf, 1, 2, 3, 4, 5, 6, 7], (Short, 8)),
    (&[0xcb, 1, 2, 3, 4, 5, 6, 7], (Short, 8)),
    (&[0xc7, 0x07], (Short, 2)),
    (&[0xc9, 0, 0, 0, 1], (Short, 5)),
    (&[0xd8], (Short, 1)),
];

#[test]
fn heads_that_are_cut_or_never_used_leave_the_cursor(rt: HostRuntime) {
    for (bytes, expected) in NO_HEADS {
        assert_head(&rt, bytes, Err(expected), 0);
    }
}

// ---- values in values

// What msgpack-python writes for a list of a map of records, of a list of nil, true, an empty
// list, a list of an empty map and a map with a negative number, and of the float 1.5.
const NESTED: [u8; 104] = [
    0x93, 0x81, 0xa8, 0x70, 0x61, 0x63, 0x6b, 0x61, 0x67, 0x65, 0x73, 0x81, 0xaf, 0x61, 0x2d, 0x31,
    0x2e, 0x30, 0x2d, 0x30, 0x2e, 0x74, 0x61, 0x72, 0x2e, 0x62, 0x7a, 0x32, 0x84, 0xa4, 0x6e, 0x61,
    0x6d, 0x65, 0xa1, 0x61, 0xa7, 0x64, 0x65, 0x70, 0x65, 0x6e, 0x64, 0x73, 0x92, 0xa5, 0x62, 0x20,
    0x3e, 0x3d, 0x31, 0xa1, 0x63, 0xa4, 0x73, 0x69, 0x7a, 0x65, 0xce, 0x00, 0x01, 0x11, 0x70, 0xa3,
    0x6d, 0x64, 0x35, 0xc4, 0x10, 0x00, 0x00, 0x00, 0x00, 0x00, 0x00, 0x00, 0x00, 0x00, 0x00, 0x00,
    0x00, 0x00, 0x00, 0x00, 0x00, 0x95, 0xc0, 0xc3, 0x90, 0x91, 0x80, 0x81, 0xa1, 0x6b, 0xff, 0xcb,
    0x3f, 0xf8, 0x00, 0x00, 0x00, 0x00, 0x00, 0x00,
];

#[test]
fn skips_what_another_program_wrote_and_is_short_at_each_cut(rt: HostRuntime) {
    assert_skips(&rt, &NESTED, Ok(()), 104);
    assert_short_at_each_cut(&rt, &NESTED);
}

// Bytes that begin with a value, and the number of bytes that it takes.
const SKIPPED: [(&[u8], usize); 8] = [
    // a list in a list, and a value behind it
    (&[0x92, 0x91, 0x01, 0x02, 0x03], 4),
    // the keys and the values of a map, both maps
    (
        &[0x82, 0x81, 0x01, 0x02, 0x80, 0x80, 0x81, 0x03, 0x04, 0x05],
        9,
    ),
    // an empty map in front of others
    (&[0x80, 0x80], 1),
    // a text as it stands, and one that is no UTF-8
    (&[0xa2, 0x68, 0x69, 0x00], 3),
    (&[0xa1, 0xff, 0x00], 2),
    // an ext in a list
    (&[0x91, 0xd5, 0x01, 0xc1, 0xc1, 0x00], 5),
    // a float in a map
    (&[0x81, 0xa1, 0x6b, 0xca, 0xc1, 0xc1, 0xc1, 0xc1, 0x00], 8),
    // a bin in a list
    (&[0x92, 0xc4, 0x02, 0xc1, 0xc1, 0xc0, 0x00], 6),
];

#[test]
fn skips_one_value_of_any_depth_and_no_more(rt: HostRuntime) {
    for (bytes, at) in SKIPPED {
        assert_skips(&rt, bytes, Ok(()), at);
    }
}

// Bytes within which the first value breaks off, and the fault.
const BROKEN_OFF: [(&[u8], Fault); 9] = [
    (&[0x92, 0xc0], (Short, 2)),
    (&[0x81, 0xa1, 0x6b], (Short, 3)),
    (&[0x91, 0xa3, 0x61, 0x62], (Short, 4)),
    (&[0x91, 0x91, 0xcd, 0x01], (Short, 4)),
    (&[0x92, 0xc1, 0xc0], (Reserved, 1)),
    (&[0x92, 0xc0, 0xc1], (Reserved, 2)),
    (&[0x81, 0xc1, 0x00], (Reserved, 1)),
    (&[0x82, 0x01, 0x91, 0xc1, 0xc1], (Reserved, 3)),
    // the byte that is never used stands before the end of the bytes
    (&[0xdf, 0xff, 0xff, 0xff, 0xff, 0x00, 0xc1], (Reserved, 6)),
];

#[test]
fn refuses_the_first_value_that_breaks_off(rt: HostRuntime) {
    for (bytes, expected) in BROKEN_OFF {
        assert_skips(&rt, bytes, Err(expected), 0);
    }
}

#[test]
fn claimed_numbers_of_values_and_bytes_cost_nothing(rt: HostRuntime) {
    // 4,294,967,295 pairs, elements and bytes, of which none or a few are there.
    let pairs = [
        0xdf, 0xff, 0xff, 0xff, 0xff, 0, 0, 0, 0, 0, 0, 0, 0, 0, 0, 0, 0, 0, 0, 0,
    ];
    assert_skips(&rt, &pairs, Err((Short, 20)), 0);
    assert_skips(&rt, &[0xdd, 0xff, 0xff, 0xff, 0xff], Err((Short, 5)), 0);
    assert_skips(
        &rt,
        &[0xdb, 0xff, 0xff, 0xff, 0xff, 0x61],
        Err((Short, 6)),
        0,
    );
    assert_skips(
        &rt,
        &[0xc9, 0xff, 0xff, 0xff, 0xff, 0x01],
        Err((Short, 6)),
        0,
    );
}

#[test]
fn skips_lists_in_lists_a_hundred_thousand_deep(rt: HostRuntime) -> Result<(), Fail> {
    let mut bytes = vec![in rt.alloc(); 0x91u8; 100_000]?;
    assert_skips(&rt, &bytes, Err((Short, 100_000)), 0);
    bytes.push(NIL)?;
    assert_skips(&rt, &bytes, Ok(()), 100_001);
    bytes[99_999] = NEVER_USED;
    assert_skips(&rt, &bytes, Err((Reserved, 99_999)), 0);
    Ok(())
}

// ---- payloads

#[test]
fn takes_a_payload_behind_its_head(rt: HostRuntime) -> Result<(), Fail> {
    let bytes = [0xa2, 0x68, 0x69, 0xc4, 0x01, 0xc1];
    let mut cursor = Cursor::new(&bytes);
    assert_eq!(rt; cursor.head()?, Head::Str(2));
    assert_eq!(rt; cursor.take(2)?, b"hi".as_slice());
    assert_eq!(rt; cursor.head()?, Head::Bin(1));
    assert!(rt; !cursor.is_end());
    assert_eq!(rt; cursor.take(1)?, [0xc1].as_slice());
    assert!(rt; cursor.is_end());
    assert_eq!(rt; cursor.take(0)?, [].as_slice());
    assert_eq!(rt; cursor.at(), 6);
    Ok(())
}

#[test]
fn leaves_the_cursor_where_fewer_bytes_are_left(rt: HostRuntime) -> Result<(), Fail> {
    let bytes = [0xa3, 0x68, 0x69];
    let mut cursor = Cursor::new(&bytes);
    assert_eq!(rt; cursor.head()?, Head::Str(3));
    assert_eq!(rt; in_parts(cursor.take(3)), Err((Short, 3)));
    assert_eq!(rt; in_parts(cursor.take(u32::MAX)), Err((Short, 3)));
    assert_eq!(rt; cursor.at(), 1);
    assert_eq!(rt; cursor.take(2)?, b"hi".as_slice());
    Ok(())
}

#[test]
fn a_copy_moves_alone(rt: HostRuntime) -> Result<(), Fail> {
    let mut cursor = Cursor::new(&[0x01, 0x02]);
    let mut ahead = cursor.copy();
    ahead.skip()?;
    assert_eq!(rt; ahead.at(), 1);
    assert_eq!(rt; cursor.at(), 0);
    assert_eq!(rt; cursor.head()?, Head::Int(1));
    assert_eq!(rt; ahead.head()?, Head::Int(2));
    Ok(())
}

// ---- values by their kind, each behind a nil, so that places are counted from the first byte

// A cursor behind the nil that these bytes begin with.
fn behind_nil<'a>(rt: &impl Abort, bytes: &'a [u8]) -> Cursor<'a> {
    let mut cursor = Cursor::new(bytes);
    assert_eq!(rt; in_parts(cursor.head()), Ok(Head::Nil), "{bytes:?}");
    cursor
}

// Bytes, what is read of them behind the first one, and the place where the cursor stands then.
const MAPS: [(&[u8], Result<u32, Fault>, usize); 8] = [
    (&[NIL, 0x80], Ok(0), 2),
    (&[NIL, 0x82, 0x01], Ok(2), 2),
    (&[NIL, 0xde, 0x01, 0x02], Ok(258), 4),
    (&[NIL, 0xdf, 0xff, 0xff, 0xff, 0xff], Ok(4_294_967_295), 6),
    (&[NIL], Err((Short, 1)), 1),
    (&[NIL, 0xde, 0x01], Err((Short, 3)), 1),
    (&[NIL, 0xc1], Err((Reserved, 1)), 1),
    (&[NIL, 0x92, 0x00, 0x00], Err((Wrong, 1)), 1),
];

#[test]
fn reads_the_head_of_a_map_or_says_what_is_wrong(rt: HostRuntime) {
    for (bytes, expected, at) in MAPS {
        let mut cursor = behind_nil(&rt, bytes);
        assert_eq!(rt; in_parts(cursor.map_len()), expected, "{bytes:?}");
        assert_eq!(rt; cursor.at(), at, "{bytes:?}");
    }
}

// The same for a text.
const TEXTS: [(&[u8], Result<&str, Fault>, usize); 12] = [
    (&[NIL, 0xa0], Ok(""), 2),
    (
        &[NIL, 0xa5, 0x6e, 0x75, 0x6d, 0x70, 0x79, 0x00],
        Ok("numpy"),
        7,
    ),
    (&[NIL, 0xd9, 0x02, 0xc3, 0xa9], Ok("\u{e9}"), 5),
    (&[NIL, 0xdb, 0x00, 0x00, 0x00, 0x01, 0x61], Ok("a"), 7),
    (&[NIL], Err((Short, 1)), 1),
    (&[NIL, 0xd9], Err((Short, 2)), 1),
    (&[NIL, 0xa3, 0x61, 0x62], Err((Short, 4)), 1),
    (&[NIL, 0xc1], Err((Reserved, 1)), 1),
    (&[NIL, 0x01], Err((Wrong, 1)), 1),
    (&[NIL, 0xc4, 0x01, 0x61], Err((Wrong, 1)), 1),
    (&[NIL, 0xa1, 0xff], Err((NotText, 1)), 1),
    (&[NIL, 0xda, 0x00, 0x02, 0xc3, 0x28], Err((NotText, 1)), 1),
];

#[test]
fn reads_a_text_or_says_what_is_wrong(rt: HostRuntime) {
    for (bytes, expected, at) in TEXTS {
        let mut cursor = behind_nil(&rt, bytes);
        assert_eq!(rt; in_parts(cursor.text()), expected, "{bytes:?}");
        assert_eq!(rt; cursor.at(), at, "{bytes:?}");
    }
}

// The same for a str or another value.
const STRS: [(&[u8], Result<Option<&[u8]>, Fault>, usize); 10] = [
    (&[NIL, 0xa1, 0x61], Ok(Some(&[0x61])), 3),
    (&[NIL, 0xa0], Ok(Some(&[])), 2),
    (
        &[NIL, 0xd9, 0x02, 0xff, 0xfe, 0x00],
        Ok(Some(&[0xff, 0xfe])),
        5,
    ),
    (&[NIL, 0x01], Ok(None), 2),
    (&[NIL, 0xc4, 0x01, 0x61, 0x00], Ok(None), 4),
    (
        &[NIL, 0x81, 0xa1, 0x61, 0x92, 0x01, 0x02, 0x00],
        Ok(None),
        7,
    ),
    (&[NIL], Err((Short, 1)), 1),
    (&[NIL, 0xa2, 0x61], Err((Short, 3)), 1),
    (&[NIL, 0x92, 0x01], Err((Short, 3)), 1),
    (&[NIL, 0x91, 0xc1], Err((Reserved, 2)), 1),
];

#[test]
fn reads_the_bytes_of_a_str_or_skips_another_value(rt: HostRuntime) {
    for (bytes, expected, at) in STRS {
        let mut cursor = behind_nil(&rt, bytes);
        assert_eq!(rt; in_parts(cursor.str_or_skip()), expected, "{bytes:?}");
        assert_eq!(rt; cursor.at(), at, "{bytes:?}");
    }
}

// The same for a whole number or another value.
const WHOLE_NUMBERS: [(&[u8], Result<Option<u64>, Fault>, usize); 12] = [
    (&[NIL, 0x00], Ok(Some(0)), 2),
    (&[NIL, 0xcd, 0x01, 0x02], Ok(Some(258)), 4),
    (
        &[NIL, 0xcf, 0xff, 0xff, 0xff, 0xff, 0xff, 0xff, 0xff, 0xff],
        Ok(Some(18_446_744_073_709_551_615)),
        10,
    ),
    (&[NIL, 0xd0, 0x05], Ok(Some(5)), 3),
    (&[NIL, 0xff], Ok(None), 2),
    (&[NIL, 0xd3, 0x80, 0, 0, 0, 0, 0, 0, 0], Ok(None), 10),
    (&[NIL, 0xca, 0x3f, 0x80, 0x00, 0x00], Ok(None), 6),
    (&[NIL, 0xa1, 0x31], Ok(None), 3),
    (&[NIL, 0x91, 0x05], Ok(None), 3),
    (&[NIL], Err((Short, 1)), 1),
    (&[NIL, 0xcd, 0x01], Err((Short, 3)), 1),
    (&[NIL, 0x91, 0xc1], Err((Reserved, 2)), 1),
];

#[test]
fn reads_a_whole_number_or_skips_another_value(rt: HostRuntime) {
    for (bytes, expected, at) in WHOLE_NUMBERS {
        let mut cursor = behind_nil(&rt, bytes);
        assert_eq!(rt; in_parts(cursor.number_or_skip()), expected, "{bytes:?}");
        assert_eq!(rt; cursor.at(), at, "{bytes:?}");
    }
}

// ---- texts

#[test]
fn text_is_utf_8_or_none(rt: HostRuntime) -> Result<(), Fail> {
    assert_eq!(rt; utf8_text(b"numpy").ok_or("it is ASCII")?, "numpy");
    assert_eq!(rt;
        utf8_text(&[0xe2, 0x82, 0xac]).ok_or("it is a character")?,
        "\u{20ac}"
    );
    assert!(rt; utf8_text(&[0xe2, 0x82]).is_none());
    assert!(rt; utf8_text(&[0xed, 0xa0, 0x80]).is_none());
    Ok(())
}

#[test]
fn a_text_is_copied_into_memory_of_its_own(rt: HostRuntime) -> Result<(), Fail> {
    let text = Text::copy(rt.alloc(), "numpy \u{e9}")?;
    assert_eq!(rt; text.as_str(), "numpy \u{e9}");
    Ok(())
}

// ---- spans

// Bytes that begin with a text, and where the text stands in them, or what is wrong and where.
const SPANS: [(&[u8], Result<(usize, usize), Fault>); 10] = [
    (b"\xa0", Ok((1, 1))),
    (b"\xa5numpy\xa1x", Ok((1, 6))),
    (b"\xa2\xc3\xa9", Ok((1, 3))),
    (b"\xd9\x05numpy", Ok((2, 7))),
    (b"\xda\x00\x05numpy", Ok((3, 8))),
    (b"\xdb\x00\x00\x00\x05numpy!", Ok((5, 10))),
    (b"\xa6numpy", Err((Short, 6))),
    (b"\xd9\x05nump", Err((Short, 6))),
    (b"\xa2\xc3\x28", Err((NotText, 0))),
    (b"\xc4\x01n", Err((Wrong, 0))),
];

fn first_span(bytes: &[u8]) -> Result<(usize, usize), Fault> {
    let span = in_parts(Cursor::new(bytes).text_span())?;
    Ok((span.start, span.end))
}

#[test]
fn a_text_is_told_by_its_span(rt: HostRuntime) -> Result<(), Fail> {
    for (bytes, expected) in &SPANS {
        assert_eq!(rt; first_span(bytes), *expected, "{bytes:?}");
    }
    Ok(())
}

#[test]
fn a_span_shows_its_text_or_none(rt: HostRuntime) -> Result<(), Fail> {
    let bytes: &[u8] = b"\xa5numpy\xc3\xa9";
    let cases = [
        (1, 6, "numpy"),
        (6, 8, "\u{e9}"),
        (3, 3, ""),
        (6, 7, ""),
        (7, 9, ""),
        (5, 4, ""),
    ];
    for (start, end, text) in &cases {
        let span = Span {
            start: *start,
            end: *end,
        };
        assert_eq!(rt; span.text(bytes), *text, "{start} {end}");
    }
    Ok(())
}

#[test]
fn a_text_and_the_bytes_of_a_str_are_given_with_their_span(rt: HostRuntime) -> Result<(), Fail> {
    let bytes: &[u8] = b"\xa1n\xd9\x02ab\x07";
    let mut cursor = Cursor::new(bytes);
    let (text, span) = in_parts(cursor.placed_text())?;
    assert_eq!(rt; (text, span.start, span.end), ("n", 1, 2));
    let placed = in_parts(cursor.placed_str_or_skip())?;
    assert_eq!(rt; placed, Some((b"ab".as_slice(), Span { start: 4, end: 6 })));
    assert_eq!(rt; in_parts(cursor.placed_str_or_skip())?, None);
    assert!(rt; cursor.is_end());
    assert_eq!(rt; cursor.bytes(), bytes);
    Ok(())
}

#[test]
fn room_is_made_for_what_is_claimed_up_to_a_limit(rt: HostRuntime) -> Result<(), Fail> {
    for (claimed, room) in [(0, 0), (3, 3), (64, 64), (65, 64), (u32::MAX, 64)] {
        let bytes: Vec<u8> = room_for(rt.alloc(), claimed)?;
        assert_eq!(rt; bytes.capacity(), room, "{claimed}");
    }
    Ok(())
}

// ---- writing

// Numbers, and their shortest spellings.
const WRITTEN_NUMBERS: [(u64, &[u8]); 11] = [
    (0, &[0x00]),
    (127, &[0x7f]),
    (128, &[0xcc, 0x80]),
    (255, &[0xcc, 0xff]),
    (256, &[0xcd, 0x01, 0x00]),
    (65_535, &[0xcd, 0xff, 0xff]),
    (65_536, &[0xce, 0x00, 0x01, 0x00, 0x00]),
    (4_294_967_295, &[0xce, 0xff, 0xff, 0xff, 0xff]),
    (
        4_294_967_296,
        &[0xcf, 0x00, 0x00, 0x00, 0x01, 0x00, 0x00, 0x00, 0x00],
    ),
    (
        0x0102_0304_0506_0708,
        &[0xcf, 0x01, 0x02, 0x03, 0x04, 0x05, 0x06, 0x07, 0x08],
    ),
    (
        18_446_744_073_709_551_615,
        &[0xcf, 0xff, 0xff, 0xff, 0xff, 0xff, 0xff, 0xff, 0xff],
    ),
];

#[test]
fn writes_numbers_by_their_shortest_spellings(rt: HostRuntime) -> Result<(), Fail> {
    for (number, expected) in WRITTEN_NUMBERS {
        let mut out = [NIL].to_vec(rt.alloc())?;
        put_uint(&mut out, number)?;
        let mut cursor = behind_nil(&rt, out.as_slice());
        assert_eq!(rt; out.get(1..), Some(expected), "{number}");
        assert_eq!(rt;
            in_parts(cursor.number_or_skip()),
            Ok(Some(number)),
            "{number}"
        );
        assert!(rt; cursor.is_end(), "{number}");
    }
    Ok(())
}

// Lengths of payloads, and the heads of a str and of a bin of such a length.
const WRITTEN_PAYLOADS: [(usize, &[u8], &[u8]); 7] = [
    (0, &[0xa0], &[0xc4, 0x00]),
    (31, &[0xbf], &[0xc4, 0x1f]),
    (32, &[0xd9, 0x20], &[0xc4, 0x20]),
    (255, &[0xd9, 0xff], &[0xc4, 0xff]),
    (256, &[0xda, 0x01, 0x00], &[0xc5, 0x01, 0x00]),
    (65_535, &[0xda, 0xff, 0xff], &[0xc5, 0xff, 0xff]),
    (
        65_536,
        &[0xdb, 0x00, 0x01, 0x00, 0x00],
        &[0xc6, 0x00, 0x01, 0x00, 0x00],
    ),
];

#[test]
fn writes_texts_and_bytes_by_their_shortest_spellings(rt: HostRuntime) -> Result<(), Fail> {
    let alloc = rt.alloc();
    for (len, str_head, bin_head) in WRITTEN_PAYLOADS {
        let payload = vec![in alloc; b'a'; len]?;
        assert!(rt; payload.len() <= 65_536, "{len}");
        let text = utf8_text(payload.as_slice()).ok_or("it is ASCII")?;
        let mut str = Vec::new(alloc);
        put_str(&mut str, text)?;
        assert_eq!(rt; str.get(..str_head.len()), Some(str_head), "{len}");
        assert_eq!(rt;
            str.get(str_head.len()..),
            Some(payload.as_slice()),
            "{len}"
        );
        assert_eq!(rt;
            in_parts(Cursor::new(str.as_slice()).text()),
            Ok(text),
            "{len}"
        );
        let mut bin = Vec::new(alloc);
        put_bin(&mut bin, payload.as_slice())?;
        assert_eq!(rt; bin.get(..bin_head.len()), Some(bin_head), "{len}");
        assert_eq!(rt;
            bin.get(bin_head.len()..),
            Some(payload.as_slice()),
            "{len}"
        );
    }
    Ok(())
}

// Numbers of elements or pairs, and the heads of an array and of a map of so many.
const WRITTEN_COUNTS: [(u32, &[u8], &[u8]); 6] = [
    (0, &[0x90], &[0x80]),
    (15, &[0x9f], &[0x8f]),
    (16, &[0xdc, 0x00, 0x10], &[0xde, 0x00, 0x10]),
    (65_535, &[0xdc, 0xff, 0xff], &[0xde, 0xff, 0xff]),
    (
        65_536,
        &[0xdd, 0x00, 0x01, 0x00, 0x00],
        &[0xdf, 0x00, 0x01, 0x00, 0x00],
    ),
    (
        4_294_967_295,
        &[0xdd, 0xff, 0xff, 0xff, 0xff],
        &[0xdf, 0xff, 0xff, 0xff, 0xff],
    ),
];

#[test]
fn writes_heads_of_arrays_and_maps_by_their_shortest_spellings(
    rt: HostRuntime,
) -> Result<(), Fail> {
    for (count, array_head, map_head) in WRITTEN_COUNTS {
        let mut out = Vec::new(rt.alloc());
        put_array(&mut out, count)?;
        assert_eq!(rt; out.as_slice(), array_head);
        assert_eq!(rt; Cursor::new(out.as_slice()).head()?, Head::Array(count));
        out.clear();
        put_map(&mut out, count)?;
        assert_eq!(rt; out.as_slice(), map_head);
        assert_eq!(rt; Cursor::new(out.as_slice()).head()?, Head::Map(count));
    }
    Ok(())
}
