//! The bytes of a request.

use super::*;
use link_io::{HttpUrl, Key, Target};
use std::alloc::Global;
use std::test::Fail;

// An address, and the request for it.
const REQUESTS: [(&str, &[u8]); 4] = [
    (
        "http://h:8080/c/noarch/repodata_shards.msgpack",
        b"GET /c/noarch/repodata_shards.msgpack HTTP/1.0\r\nHost: h:8080\r\nAccept: */*\r\nConnection: close\r\n\r\n",
    ),
    (
        "http://h/",
        b"GET / HTTP/1.0\r\nHost: h\r\nAccept: */*\r\nConnection: close\r\n\r\n",
    ),
    (
        "http://127.0.0.1:1/a%20b/",
        b"GET /a%20b/ HTTP/1.0\r\nHost: 127.0.0.1:1\r\nAccept: */*\r\nConnection: close\r\n\r\n",
    ),
    (
        "http://[::1]:65535//x",
        b"GET //x HTTP/1.0\r\nHost: [::1]:65535\r\nAccept: */*\r\nConnection: close\r\n\r\n",
    ),
];

// Whether the request for an address is that text, and has that size.
fn is_request(alloc: Global, text: &str, wanted: &[u8]) -> Result<bool, Fail> {
    let url = HttpUrl::read(alloc, text).ok().ok_or("it is an address")?;
    let key = Key::Index(url.copy(alloc)?);
    let target = Target { key, url };
    let request = request_text(alloc, &target)?;
    Ok(request.as_slice() == wanted && request_size(&target) == wanted.len())
}

#[test]
fn a_request_names_the_path_and_the_authority(rt: HostRuntime) -> Result<(), Fail> {
    for (text, wanted) in REQUESTS {
        assert!(rt; is_request(rt.alloc(), text, wanted)?, "{text}");
    }
    Ok(())
}
