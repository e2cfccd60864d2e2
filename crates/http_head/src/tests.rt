//! Replies as docs/FORMATS.md, "Replies" has them, judged whole and at every cut.

use super::*;
use std::alloc::{AllocError, Global};
use std::test::Fail;

// A reply with a body: its bytes, how many of them are its head, and how the body ends.
const GOOD: [(&[u8], u64, Frame); 40] = [
    (
        b"HTTP/1.1 200 OK\r\nContent-Length: 9\r\n\r\n\x81\xa6shards\x80",
        38,
        Frame::Length(9),
    ),
    // More behind the body.
    (
        b"HTTP/1.1 200 OK\r\nContent-Length: 9\r\n\r\n\x81\xa6shards\x80\x00\x01\x02",
        38,
        Frame::Length(9),
    ),
    // The same length twice, and three times.
    (
        b"HTTP/1.1 200 OK\r\nContent-Length: 9\r\nContent-Length: 9\r\n\r\n\x81\xa6shards\x80",
        57,
        Frame::Length(9),
    ),
    (
        b"HTTP/1.1 200 OK\r\nContent-Length: 9\r\ncontent-length:\t9 \r\nCONTENT-LENGTH:9\r\n\r\n\x81\xa6shards\x80",
        76,
        Frame::Length(9),
    ),
    // Blanks and tabs round the value, or none.
    (
        b"HTTP/1.1 200 OK\r\nContent-Length: \t 9 \t\r\n\r\n\x81\xa6shards\x80",
        42,
        Frame::Length(9),
    ),
    (
        b"HTTP/1.1 200 OK\r\nContent-Length:9\r\n\r\n\x81\xa6shards\x80",
        37,
        Frame::Length(9),
    ),
    (
        b"HTTP/1.1 200 OK\r\nContent-Length:\t\t9\r\n\r\n\x81\xa6shards\x80",
        39,
        Frame::Length(9),
    ),
    // The name in any case.
    (
        b"HTTP/1.1 200 OK\r\ncontent-length: 9\r\n\r\n\x81\xa6shards\x80",
        38,
        Frame::Length(9),
    ),
    (
        b"HTTP/1.1 200 OK\r\nCONTENT-LENGTH: 9\r\n\r\n\x81\xa6shards\x80",
        38,
        Frame::Length(9),
    ),
    (
        b"HTTP/1.1 200 OK\r\ncOnTeNt-LeNgTh: 9\r\n\r\n\x81\xa6shards\x80",
        38,
        Frame::Length(9),
    ),
    // Zeros in front.
    (
        b"HTTP/1.1 200 OK\r\nContent-Length: 009\r\n\r\n\x81\xa6shards\x80",
        40,
        Frame::Length(9),
    ),
    (
        b"HTTP/1.1 200 OK\r\nContent-Length: 00000000000000000000000000000000000000009\r\n\r\n\x81\xa6shards\x80",
        78,
        Frame::Length(9),
    ),
    // Line feeds alone, and both ends of lines.
    (
        b"HTTP/1.1 200 OK\nContent-Length: 9\n\n\x81\xa6shards\x80",
        35,
        Frame::Length(9),
    ),
    (
        b"HTTP/1.1 200 OK\nContent-Length: 9\r\n\n\x81\xa6shards\x80",
        36,
        Frame::Length(9),
    ),
    (
        b"HTTP/1.1 200 OK\r\nContent-Length: 9\n\r\n\x81\xa6shards\x80",
        37,
        Frame::Length(9),
    ),
    // Empty lines first.
    (
        b"\r\nHTTP/1.1 200 OK\r\nContent-Length: 9\r\n\r\n\x81\xa6shards\x80",
        40,
        Frame::Length(9),
    ),
    (
        b"\n\n\r\nHTTP/1.1 200 OK\r\nContent-Length: 9\r\n\r\n\x81\xa6shards\x80",
        42,
        Frame::Length(9),
    ),
    // Other first lines of status 200.
    (
        b"HTTP/1.0 200 OK\r\nContent-Length: 9\r\n\r\n\x81\xa6shards\x80",
        38,
        Frame::Length(9),
    ),
    (
        b"HTTP/1.1 200\r\nContent-Length: 9\r\n\r\n\x81\xa6shards\x80",
        35,
        Frame::Length(9),
    ),
    (
        b"HTTP/1.1 200 \r\nContent-Length: 9\r\n\r\n\x81\xa6shards\x80",
        36,
        Frame::Length(9),
    ),
    (
        b"HTTP/1.1 200 \xc3\xa9\tx  \r\nContent-Length: 9\r\n\r\n\x81\xa6shards\x80",
        42,
        Frame::Length(9),
    ),
    (
        b"HTTP/1.1 200 404 Not Found\r\nContent-Length: 9\r\n\r\n\x81\xa6shards\x80",
        49,
        Frame::Length(9),
    ),
    // Other fields.
    (
        b"HTTP/1.1 200 OK\r\nServer: x\r\nContent-Length: 9\r\nConnection: close\r\nX:\r\nY: \xe9\xff\t\x80\r\n\r\n\x81\xa6shards\x80",
        81,
        Frame::Length(9),
    ),
    (
        b"HTTP/1.1 200 OK\r\nX-Content-Length: 5\r\nContent-Lengths: 5\r\nContent_Length: 5\r\nContent-Length: 9\r\nContent-Range: bytes 0-8/9\r\n\r\n\x81\xa6shards\x80",
        126,
        Frame::Length(9),
    ),
    (
        b"HTTP/1.1 200 OK\r\nTransfer-Encodings: chunked\r\nX-Transfer-Encoding: chunked\r\nTransfer: Encoding\r\nContent-Length: 9\r\n\r\n\x81\xa6shards\x80",
        117,
        Frame::Length(9),
    ),
    (
        b"HTTP/1.1 200 OK\r\nContent-Encoding: zstd\r\nContent-Length: 9\r\n\r\n\x81\xa6shards\x80",
        62,
        Frame::Length(9),
    ),
    // Other lengths.
    (
        b"HTTP/1.1 200 OK\r\nContent-Length: 0\r\n\r\n",
        38,
        Frame::Length(0),
    ),
    (
        b"HTTP/1.1 200 OK\r\nContent-Length: 0\r\n\r\n\x81\xa6shards\x80",
        38,
        Frame::Length(0),
    ),
    (
        b"HTTP/1.1 200 OK\r\nContent-Length: 1\r\n\r\n\n",
        38,
        Frame::Length(1),
    ),
    (
        b"HTTP/1.1 200 OK\r\nContent-Length: 26\r\n\r\nHTTP/1.1 404 Not Found\r\n\r\n",
        39,
        Frame::Length(26),
    ),
    // A body that ends before its length.
    (
        b"HTTP/1.1 200 OK\r\nContent-Length: 10\r\n\r\n\x81\xa6shards\x80",
        39,
        Frame::Length(10),
    ),
    (
        b"HTTP/1.1 200 OK\r\nContent-Length: 33554432\r\n\r\nx",
        45,
        Frame::Length(33_554_432),
    ),
    // No length: the body goes on until the end.
    (
        b"HTTP/1.1 200 OK\r\n\r\n\x83\xa8packages\x80\xaepackages.conda\x80\xa7removed\x90",
        19,
        Frame::ToEnd,
    ),
    (b"HTTP/1.1 200 OK\r\n\r\n", 19, Frame::ToEnd),
    (b"HTTP/1.1 200 OK\n\n\x81\xa6shards\x80", 17, Frame::ToEnd),
    (b"HTTP/1.0 200\r\n\r\n\x81\xa6shards\x80", 16, Frame::ToEnd),
    (
        b"HTTP/1.1 200 OK\r\nContent-Encoding: gzip\r\n\r\n\x81\xa6shards\x80",
        43,
        Frame::ToEnd,
    ),
    (
        b"HTTP/1.1 200 OK\r\nTE: chunked\r\nTrailer: Transfer-Encoding\r\nX: Content-Length: 3\r\n\r\n\x81\xa6shards\x80",
        82,
        Frame::ToEnd,
    ),
    (
        b"\r\n\r\nHTTP/1.1 200 OK\r\nConnection: keep-alive\r\n\r\n\x81\xa6shards\x80",
        47,
        Frame::ToEnd,
    ),
    (
        b"HTTP/1.1 200 OK\r\nContentlength: 3\r\nLength: 4\r\n\r\n\r\n\r\n",
        48,
        Frame::ToEnd,
    ),
];

// A reply that is none of a body: its bytes, how many of them are its head, and what it is.
const REFUSED: [(&[u8], u64, Reply); 63] = [
    // A Transfer-Encoding, whatever its value, its case and its place.
    (
        b"HTTP/1.1 200 OK\r\nTransfer-Encoding: chunked\r\n\r\n\x81\xa6shards\x80",
        47,
        Reply::BadReply,
    ),
    (
        b"HTTP/1.1 200 OK\r\nTransfer-Encoding: identity\r\n\r\n\x81\xa6shards\x80",
        48,
        Reply::BadReply,
    ),
    (
        b"HTTP/1.1 200 OK\r\nTransfer-Encoding: gzip, chunked\r\n\r\n\x81\xa6shards\x80",
        53,
        Reply::BadReply,
    ),
    (
        b"HTTP/1.1 200 OK\r\nTransfer-Encoding: \r\n\r\n\x81\xa6shards\x80",
        40,
        Reply::BadReply,
    ),
    (
        b"HTTP/1.1 200 OK\r\ntransfer-encoding: chunked\r\n\r\n9\r\n",
        47,
        Reply::BadReply,
    ),
    (
        b"HTTP/1.1 200 OK\r\nTRANSFER-ENCODING:chunked\r\n\r\n",
        46,
        Reply::BadReply,
    ),
    (
        b"HTTP/1.1 200 OK\ntRANSFER-eNCODING: chunked\n\n",
        44,
        Reply::BadReply,
    ),
    (
        b"HTTP/1.1 200 OK\r\nTransfer-Encoding: chunked\r\nContent-Length: 9\r\n\r\n\x81\xa6shards\x80",
        66,
        Reply::BadReply,
    ),
    (
        b"HTTP/1.1 200 OK\r\nContent-Length: 9\r\nTransfer-Encoding: chunked\r\n\r\n\x81\xa6shards\x80",
        66,
        Reply::BadReply,
    ),
    (
        b"HTTP/1.1 200 OK\r\nTransfer-Encoding: x\r\nContent-Length: 33554433\r\n\r\n",
        67,
        Reply::BadReply,
    ),
    (
        b"HTTP/1.1 200 OK\r\nContent-Length: 33554433\r\nTransfer-Encoding: x\r\n\r\n",
        67,
        Reply::BadReply,
    ),
    // A length that is no number.
    (
        b"HTTP/1.1 200 OK\r\nContent-Length: +9\r\n\r\n\x81\xa6shards\x80",
        39,
        Reply::BadReply,
    ),
    (
        b"HTTP/1.1 200 OK\r\nContent-Length: -9\r\n\r\n\x81\xa6shards\x80",
        39,
        Reply::BadReply,
    ),
    (
        b"HTTP/1.1 200 OK\r\nContent-Length: \r\n\r\n\x81\xa6shards\x80",
        37,
        Reply::BadReply,
    ),
    (
        b"HTTP/1.1 200 OK\r\nContent-Length:  \t \r\n\r\n\x81\xa6shards\x80",
        40,
        Reply::BadReply,
    ),
    (
        b"HTTP/1.1 200 OK\r\nContent-Length: 9,9\r\n\r\n\x81\xa6shards\x80",
        40,
        Reply::BadReply,
    ),
    (
        b"HTTP/1.1 200 OK\r\nContent-Length: 9, 9\r\n\r\n\x81\xa6shards\x80",
        41,
        Reply::BadReply,
    ),
    (
        b"HTTP/1.1 200 OK\r\nContent-Length: 9 9\r\n\r\n\x81\xa6shards\x80",
        40,
        Reply::BadReply,
    ),
    (
        b"HTTP/1.1 200 OK\r\nContent-Length: 9;\r\n\r\n\x81\xa6shards\x80",
        39,
        Reply::BadReply,
    ),
    (
        b"HTTP/1.1 200 OK\r\nContent-Length: 0x9\r\n\r\n\x81\xa6shards\x80",
        40,
        Reply::BadReply,
    ),
    (
        b"HTTP/1.1 200 OK\r\nContent-Length: 9.0\r\n\r\n\x81\xa6shards\x80",
        40,
        Reply::BadReply,
    ),
    (
        b"HTTP/1.1 200 OK\r\nContent-Length: 1e1\r\n\r\n\x81\xa6shards\x80",
        40,
        Reply::BadReply,
    ),
    (
        b"HTTP/1.1 200 OK\r\nContent-Length: 9a\r\n\r\n\x81\xa6shards\x80",
        39,
        Reply::BadReply,
    ),
    (
        b"HTTP/1.1 200 OK\r\nContent-Length: a\r\n\r\n\x81\xa6shards\x80",
        38,
        Reply::BadReply,
    ),
    (
        b"HTTP/1.1 200 OK\r\nContent-Length: \"9\"\r\n\r\n\x81\xa6shards\x80",
        40,
        Reply::BadReply,
    ),
    (
        b"HTTP/1.1 200 OK\r\nContent-Length: \xef\xbc\x99\r\n\r\n\x81\xa6shards\x80",
        40,
        Reply::BadReply,
    ),
    (
        b"HTTP/1.1 200 OK\r\nContent-Length: 9\x80\r\n\r\n\x81\xa6shards\x80",
        39,
        Reply::BadReply,
    ),
    (
        b"HTTP/1.1 200 OK\r\nContent-Length: nine\r\n\r\n\x81\xa6shards\x80",
        41,
        Reply::BadReply,
    ),
    // Lengths that differ as texts.
    (
        b"HTTP/1.1 200 OK\r\nContent-Length: 9\r\nContent-Length: 10\r\n\r\n\x81\xa6shards\x80",
        58,
        Reply::BadReply,
    ),
    (
        b"HTTP/1.1 200 OK\r\nContent-Length: 10\r\nContent-Length: 9\r\n\r\n\x81\xa6shards\x80",
        58,
        Reply::BadReply,
    ),
    (
        b"HTTP/1.1 200 OK\r\nContent-Length: 9\r\nContent-Length: 09\r\n\r\n\x81\xa6shards\x80",
        58,
        Reply::BadReply,
    ),
    (
        b"HTTP/1.1 200 OK\r\nContent-Length: 9\r\nX: y\r\nContent-Length: 9\r\nContent-Length: 8\r\n\r\n\x81\xa6shards\x80",
        82,
        Reply::BadReply,
    ),
    (
        b"HTTP/1.1 200 OK\r\nContent-Length: 9\r\nContent-Length:\r\n\r\n\x81\xa6shards\x80",
        55,
        Reply::BadReply,
    ),
    (
        b"HTTP/1.1 200 OK\r\nContent-Length: 33554433\r\nContent-Length: 33554434\r\n\r\n",
        71,
        Reply::BadReply,
    ),
    (
        b"HTTP/1.1 200 OK\r\nContent-Length: 33554433\r\nContent-Length: x\r\n\r\n",
        64,
        Reply::BadReply,
    ),
    (
        b"HTTP/1.1 200 OK\r\nContent-Length: x\r\nContent-Length: 33554433\r\n\r\n",
        64,
        Reply::BadReply,
    ),
    // Lengths above the limit.
    (
        b"HTTP/1.1 200 OK\r\nContent-Length: 33554433\r\n\r\n\x81\xa6shards\x80",
        45,
        Reply::TooLong,
    ),
    (
        b"HTTP/1.1 200 OK\r\nContent-Length: 033554433\r\n\r\n\x81\xa6shards\x80",
        46,
        Reply::TooLong,
    ),
    (
        b"HTTP/1.1 200 OK\r\nContent-Length: 4294967305\r\n\r\n\x81\xa6shards\x80",
        47,
        Reply::TooLong,
    ),
    (
        b"HTTP/1.1 200 OK\r\nContent-Length: 18446744073709551615\r\n\r\n\x81\xa6shards\x80",
        57,
        Reply::TooLong,
    ),
    (
        b"HTTP/1.1 200 OK\r\nContent-Length: 18446744073709551616\r\n\r\n\x81\xa6shards\x80",
        57,
        Reply::TooLong,
    ),
    (
        b"HTTP/1.1 200 OK\r\nContent-Length: 18446744073709551625\r\n\r\n\x81\xa6shards\x80",
        57,
        Reply::TooLong,
    ),
    (
        b"HTTP/1.1 200 OK\r\nContent-Length: 99999999999999999999\r\n\r\n\x81\xa6shards\x80",
        57,
        Reply::TooLong,
    ),
    (
        b"HTTP/1.1 200 OK\r\nContent-Length: 340282366920938463463374607431768211465\r\n\r\n\x81\xa6shards\x80",
        76,
        Reply::TooLong,
    ),
    (
        b"HTTP/1.1 200 OK\nContent-Length: 33554433\nContent-Length: 33554433\n\n",
        67,
        Reply::TooLong,
    ),
    // Other statuses, by the head alone.
    (
        b"HTTP/1.1 404 Not Found\r\nContent-Length: 0\r\n\r\n",
        45,
        Reply::Absent,
    ),
    (
        b"HTTP/1.1 404 Not Found\r\nContent-Length: 3\r\n\r\nno",
        45,
        Reply::Absent,
    ),
    (b"HTTP/1.0 404\n\n", 14, Reply::Absent),
    (
        b"HTTP/1.1 404 OK\r\nTransfer-Encoding: chunked\r\n\r\n",
        47,
        Reply::Absent,
    ),
    (b"HTTP/1.1 410 Gone\r\n\r\n", 21, Reply::Absent),
    (
        b"HTTP/1.1 410 Gone\r\nContent-Length: +1\r\nContent-Length: 99999999\r\n\r\n",
        67,
        Reply::Absent,
    ),
    (
        b"HTTP/1.1 301 Moved Permanently\r\nLocation: http://h/\r\nContent-Length: 0\r\n\r\n",
        74,
        Reply::Status(301),
    ),
    (
        b"HTTP/1.1 302 Found\r\nTransfer-Encoding: chunked\r\n\r\n",
        50,
        Reply::Status(302),
    ),
    (b"HTTP/1.1 304 Not Modified\r\n\r\n", 29, Reply::Status(304)),
    (
        b"HTTP/1.1 206 Partial Content\r\nContent-Length: 9\r\n\r\n\x81\xa6shards\x80",
        51,
        Reply::Status(206),
    ),
    (b"HTTP/1.1 204 No Content\r\n\r\n", 27, Reply::Status(204)),
    (
        b"HTTP/1.1 201 Created\r\nContent-Length: x\r\n\r\n",
        43,
        Reply::Status(201),
    ),
    (
        b"HTTP/1.1 503 Service Unavailable\r\nRetry-After: 1\r\n\r\n",
        52,
        Reply::Status(503),
    ),
    (
        b"HTTP/1.1 500\r\nContent-Length: 33554433\r\n\r\n",
        42,
        Reply::Status(500),
    ),
    (b"HTTP/1.1 000 \r\n\r\n", 17, Reply::Status(0)),
    (b"HTTP/1.1 999 200\r\n\r\n", 20, Reply::Status(999)),
    // An interim reply is the reply.
    (
        b"HTTP/1.1 100 Continue\r\n\r\nHTTP/1.1 200 OK\r\nContent-Length: 9\r\n\r\n\x81\xa6shards\x80",
        25,
        Reply::Status(100),
    ),
    (
        b"HTTP/1.1 103 Early Hints\nLink: </x>\n\nHTTP/1.1 200 OK\r\nContent-Length: 9\r\n\r\n\x81\xa6shards\x80",
        37,
        Reply::Status(103),
    ),
];

// Bytes that begin with no head.
const HEADLESS: [&[u8]; 45] = [
    // No bytes, or nothing but ends of lines.
    b"",
    b"\r\n",
    b"\n\n\n",
    b"\r\n\r\n\r\n",
    // Heads that aren't whole.
    b"HTTP/1.1 200",
    b"HTTP/1.1 200 OK\r",
    b"HTTP/1.1 200 OK\r\nContent-Length: 9\r\n",
    b"HTTP/1.1 200 OK\n\r",
    b"HTTP/1.1 200 OK\r\nX: y",
    // Other versions.
    b"HTTP/1.2 200 OK\r\n\r\n",
    b"HTTP/2.0 200 OK\r\n\r\n",
    b"HTTP/2 200\r\n\r\n",
    b"HTTP/0.9 200 OK\r\n\r\n",
    b"HTTP/11 200 OK\r\n\r\n",
    // Other first lines.
    b"http/1.1 200 OK\r\n\r\n",
    b" HTTP/1.1 200 OK\r\n\r\n",
    b"HTTP/1.1  200 OK\r\n\r\n",
    b"HTTP/1.1\t200 OK\r\n\r\n",
    b"HTTP/1.1 20 OK\r\n\r\n",
    b"HTTP/1.1 2000 OK\r\n\r\n",
    b"HTTP/1.1 2x0 OK\r\n\r\n",
    b"HTTP/1.1 +20 OK\r\n\r\n",
    b"HTTP/1.1 200OK\r\n\r\n",
    b"HTTP/1.1 200\tOK\r\n\r\n",
    b"HTTP/1.1 200 O\x00K\r\n\r\n",
    b"HTTP/1.1 200 O\x7fK\r\n\r\n",
    b"HTTP/1.1 200 OK\r\r\n\r\n",
    b"ICY 200 OK\r\n\r\n",
    b"GET / HTTP/1.1\r\n\r\n",
    b"<html></html>\n\n",
    b"\x16\x03\x01\x02\x00\x01\x00\x01\xfc\x03\x03",
    b"\x81\xa6shards\x80",
    // Folded lines.
    b"HTTP/1.1 200 OK\r\nX: a\r\n b\r\nContent-Length: 9\r\n\r\n\x81\xa6shards\x80",
    b"HTTP/1.1 200 OK\r\nX: a\r\n\tb\r\nContent-Length: 9\r\n\r\n\x81\xa6shards\x80",
    b"HTTP/1.1 200 OK\r\n X: a\r\nContent-Length: 9\r\n\r\n\x81\xa6shards\x80",
    b"HTTP/1.1 200 OK\r\nContent-Length:\r\n 9\r\n\r\n\x81\xa6shards\x80",
    // Other fields.
    b"HTTP/1.1 200 OK\r\nContent Length: 9\r\n\r\n\x81\xa6shards\x80",
    b"HTTP/1.1 200 OK\r\nContent-Length : 9\r\n\r\n\x81\xa6shards\x80",
    b"HTTP/1.1 200 OK\r\nContent-Length 9\r\n\r\n\x81\xa6shards\x80",
    b"HTTP/1.1 200 OK\r\n: 9\r\n\r\n\x81\xa6shards\x80",
    b"HTTP/1.1 200 OK\r\nL\xc3\xa4nge: 9\r\n\r\n\x81\xa6shards\x80",
    b"HTTP/1.1 200 OK\r\nX: a\x00b\r\n\r\n\x81\xa6shards\x80",
    b"HTTP/1.1 200 OK\r\nX: a\rb\r\n\r\n\x81\xa6shards\x80",
    b"HTTP/1.1 200 OK\r\nX: \x7f\r\n\r\n\x81\xa6shards\x80",
    b"HTTP/1.1 200 OK\r\nX: \x1f\r\n\r\n\x81\xa6shards\x80",
];

// What the first bytes of a reply are, by what its head says. Before the head is whole nothing is said,
// and a body that ends before its length is none.
fn expected(came: u64, head: u64, says: Reply, ended: bool) -> Reply {
    if came < head {
        return if ended {
            Reply::BadReply
        } else {
            Reply::Partial
        };
    }
    match says {
        Reply::Body {
            frame: Frame::Length(length),
            ..
        } if ended && came - head < length => Reply::BadReply,
        _ => says,
    }
}

fn is_front_judged(front: &[u8], head: u64, says: Reply) -> bool {
    let came = front.len() as u64;
    judge_head(front, false) == expected(came, head, says, false)
        && judge_head(front, true) == expected(came, head, says, true)
}

// Whether a reply and each front of it are judged as its head says, ended and not.
fn is_judged(bytes: &[u8], head: u64, says: Reply) -> bool {
    for cut in 0..bytes.len() {
        if !is_front_judged(&bytes[..cut], head, says) {
            return false;
        }
    }
    is_front_judged(bytes, head, says)
}

fn body(head_len: u64, frame: Frame) -> Reply {
    Reply::Body { head_len, frame }
}

#[test]
fn bodies_are_judged_whole_and_at_every_cut(rt: HostRuntime) -> Result<(), Fail> {
    for (bytes, head, frame) in GOOD {
        assert!(rt; is_judged(bytes, head, body(head, frame)), "{bytes:?}");
    }
    Ok(())
}

#[test]
fn other_replies_are_judged_whole_and_at_every_cut(rt: HostRuntime) -> Result<(), Fail> {
    for (bytes, head, says) in REFUSED {
        assert!(rt; is_judged(bytes, head, says), "{bytes:?}");
    }
    Ok(())
}

#[test]
fn bytes_without_a_head_are_judged_at_every_cut(rt: HostRuntime) -> Result<(), Fail> {
    for bytes in HEADLESS {
        assert!(rt; is_judged(bytes, u64::MAX, Reply::Partial), "{bytes:?}");
    }
    Ok(())
}

// So many bytes, by what they begin and end with; between these stands one letter again and again.
fn padded(alloc: Global, front: &[u8], size: u64, end: &[u8]) -> Result<Vec<u8>, AllocError> {
    let mut bytes = front.to_vec(alloc)?;
    let between = size
        .saturating_sub(front.len() as u64)
        .saturating_sub(end.len() as u64);
    for _ in 0..between {
        bytes.push(b'a')?;
    }
    bytes.extend_from_slice(end)?;
    Ok(bytes)
}

// A head of status 404 with so many fields.
fn with_fields(alloc: Global, count: u64) -> Result<Vec<u8>, AllocError> {
    let mut bytes = b"HTTP/1.1 404 N\r\n".to_vec(alloc)?;
    for _ in 0..count {
        bytes.extend_from_slice(b"X: y\r\n")?;
    }
    bytes.extend_from_slice(b"\r\n")?;
    Ok(bytes)
}

// Bytes by their front, their size and their end, and what they are where they may go on, and ended.
const LONG: [(&[u8], u64, &[u8], Reply, Reply); 9] = [
    (
        b"HTTP/1.1 404 N\r\nX:",
        65_536,
        b"\r\n\r\n",
        Reply::Absent,
        Reply::Absent,
    ),
    (
        b"HTTP/1.1 404 N\r\nX:",
        65_537,
        b"\r\n\r\n",
        Reply::TooLong,
        Reply::TooLong,
    ),
    (
        b"HTTP/1.1 404 N\r\nX:",
        65_536,
        b"\r\n",
        Reply::Partial,
        Reply::BadReply,
    ),
    (
        b"HTTP/1.1 404 N\r\nX:",
        65_537,
        b"\r\n",
        Reply::TooLong,
        Reply::TooLong,
    ),
    (b"garbage", 65_536, b"", Reply::Partial, Reply::BadReply),
    (b"garbage", 65_537, b"", Reply::TooLong, Reply::TooLong),
    (
        b"HTTP/1.1 404 N\r\n\r\n",
        65_537,
        b"",
        Reply::Absent,
        Reply::Absent,
    ),
    (
        b"HTTP/1.1 200 OK\r\n\r\n",
        33_554_451,
        b"",
        TO_THE_END,
        TO_THE_END,
    ),
    (
        b"HTTP/1.1 200 OK\r\n\r\n",
        33_554_452,
        b"",
        Reply::TooLong,
        Reply::TooLong,
    ),
];

const TO_THE_END: Reply = Reply::Body {
    head_len: 19,
    frame: Frame::ToEnd,
};

// What the bytes of a reply are where they may go on, and ended.
fn judged(bytes: &[u8]) -> (Reply, Reply) {
    (judge_head(bytes, false), judge_head(bytes, true))
}

#[test]
fn heads_fields_and_bodies_have_limits(rt: HostRuntime) -> Result<(), Fail> {
    for (front, size, end, open, ended) in LONG {
        let bytes = padded(rt.alloc(), front, size, end)?;
        assert!(rt; judged(&bytes) == (open, ended), "{size}");
    }
    let most = with_fields(rt.alloc(), 96)?;
    assert!(rt; judged(&most) == (Reply::Absent, Reply::Absent));
    let more = with_fields(rt.alloc(), 97)?;
    assert!(rt; judged(&more) == (Reply::Partial, Reply::BadReply));
    Ok(())
}

// What a reply of a status without fields is, by docs/FORMATS.md.
fn of_status(status: u16) -> Reply {
    match status {
        200 => body(16, Frame::ToEnd),
        404 | 410 => Reply::Absent,
        _ => Reply::Status(status),
    }
}

#[test]
fn each_status_is_told(rt: HostRuntime) -> Result<(), Fail> {
    for status in 0..1000u16 {
        let head = format!(in rt.alloc(); "HTTP/1.1 {status:03}\r\n\r\n")?;
        let says = of_status(status);
        assert!(rt; judged(head.as_bytes()) == (says, says), "{status}");
    }
    Ok(())
}
