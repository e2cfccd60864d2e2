//! A server of a store in memory over the network of this machine, and a connection for each row.

use channel_store::MemStore;
use mp_codec::Text;
use shard_listener::TcpAccept;
use shard_service::{Accept, ServeEnd, serve_loop};
use std::alloc::{AllocGlobal, Global};
use std::io::{Read, Write};
use std::net::{Ipv4Addr, Net, Shutdown, SocketAddr, TcpListener, TcpStream};
use std::random::RandomSource;
use std::sync::Wait;
use std::test::Fail;
use std::thread::{self, Threads};
use std::time::Clock;

const INDEX: &str = "c/noarch/repodata_shards.msgpack";

const SHARD: &str =
    "c/noarch/shards/0123456789abcdef0123456789abcdef0123456789abcdef0123456789abcdef.msgpack";

const INPUT: &str = "c/noarch/repodata.json";

// What a client sends, how what it gets back begins behind its version, and how it ends.
const ROWS: [&str; 26] = [
    "GET /c/noarch/repodata_shards.msgpack HTTP/1.1\r\nHost: h\r\n\r\n => 200 OK => \r\n\r\nindex",
    "GET /c/noarch/shards/0123456789abcdef0123456789abcdef0123456789abcdef0123456789abcdef.msgpack HTTP/1.1\r\nHost: h\r\n\r\n => 200 OK => \r\n\r\nshard",
    "GET /c/noarch/repodata_shards.msgpack?x=1 HTTP/1.1\r\nHost: h\r\n\r\n => 200 OK => \r\n\r\nindex",
    "GET /c/noarch/repodata_shards.msgpack HTTP/1.0\r\n\r\n => 200 OK => \r\n\r\nindex",
    "HEAD /c/noarch/repodata_shards.msgpack HTTP/1.1\r\nHost: h\r\n\r\n => 200 OK => \r\n\r\n",
    "POST /c/noarch/repodata_shards.msgpack HTTP/1.1\r\nHost: h\r\n\r\n => 405 => \r\n\r\n",
    "POST /x HTTP/1.1\r\nHost: h\r\nContent-Length: 5\r\n\r\nhello => 405 => \r\n\r\n",
    "GET /c/noarch/repodata_shards.msgpack HTTP/1.1\r\nHost: h\r\nContent-Length: 5\r\n\r\nhello => 200 OK => \r\n\r\nindex",
    "GET /c/noarch/repodata_shards.msgpack HTTP/1.1\r\nHost: h\r\nTransfer-Encoding: chunked\r\n\r\n1\r\nx\r\n0\r\n\r\n => 200 OK => \r\n\r\nindex",
    "GET http://h/c/noarch/repodata_shards.msgpack HTTP/1.1\r\nHost: h\r\n\r\n => 200 OK => \r\n\r\nindex",
    "GET /c/noarch/../secret HTTP/1.1\r\nHost: h\r\n\r\n => 404 => \r\n\r\n",
    "GET /c/noarch/repodata.json HTTP/1.1\r\nHost: h\r\n\r\n => 404 => \r\n\r\n",
    "GET //c/noarch/repodata_shards.msgpack HTTP/1.1\r\nHost: h\r\n\r\n => 404 => \r\n\r\n",
    "GET /c/%2e%2e/repodata_shards.msgpack HTTP/1.1\r\nHost: h\r\n\r\n => 404 => \r\n\r\n",
    "GET / HTTP/1.1\r\nHost: h\r\n\r\n => 404 => \r\n\r\n",
    "GET * HTTP/1.1\r\nHost: h\r\n\r\n => 404 => \r\n\r\n",
    "OPTIONS * HTTP/1.1\r\nHost: h\r\n\r\n => 405 => \r\n\r\n",
    "CONNECT h:80 HTTP/1.1\r\nHost: h:80\r\n\r\n => 405 => \r\n\r\n",
    "GET / HTTP/1.1\r\nHost: h\r\nHost: h\r\n\r\n => 400 => \r\n\r\n",
    "GET / HTTP/1.1\r\n\r\n => 400 => \r\n\r\n",
    "GET / HTTP/1.2\r\nHost: h\r\n\r\n => 400 => \r\n\r\n",
    "GET / HTTP/2.0\r\nHost: h\r\n\r\n => 400 => \r\n\r\n",
    "GET /\0 HTTP/1.1\r\nHost: h\r\n\r\n => 400 => \r\n\r\n",
    "hello\r\n\r\n => 400 => \r\n\r\n",
    "HEAD /c/noarch/repodata_shards.msgpack HTTP/1.1\r\nHost: h\r\n\r\nGET /c/noarch/repodata_shards.msgpack HTTP/1.1\r\nHost: h\r\n\r\n => 200 OK => \r\n\r\nindex",
    "GET /x HTTP/1.1\r\nHost: h\r\n\r\nGET /c/noarch/repodata_shards.msgpack HTTP/1.1\r\nHost: h\r\nConnection: close\r\n\r\n => 404 => \r\n\r\nindex",
];

// How many connections the rows and the long path are.
const CONNECTIONS: u64 = 27;

// A store of an index, a shard and a `repodata.json` of one place.
fn store(alloc: Global) -> Result<MemStore, Fail> {
    let mut files = Vec::new(alloc);
    for (name, bytes) in [(INDEX, b"index"), (SHARD, b"shard"), (INPUT, b"input")] {
        let bytes = bytes.as_slice().to_vec(alloc)?;
        files.push((Text::copy(alloc, name)?, bytes))?;
    }
    Ok(MemStore::new(alloc, files, Vec::new(alloc), None))
}

// Serves so many connections.
fn served<R>(rt: R, store: MemStore, accept: TcpAccept<R>, limit: u64) -> ServeEnd
where
    R: Net<Listener = TcpListener, Stream = TcpStream>
        + Clock
        + Wait
        + Threads
        + RandomSource
        + AllocGlobal
        + Copy
        + Send
        + Sync
        + Drop
        + 'static,
{
    let mut accept = accept;
    serve_loop(&rt, rt.alloc(), store, &mut accept, Some(limit))
}

// What comes back over a connection whose client sends this and nothing more.
fn heard(rt: &HostRuntime, port: u16, sent: &str) -> Result<Vec<u8>, Fail> {
    let addr = SocketAddr::from((Ipv4Addr::LOCALHOST, port));
    let mut stream = TcpStream::connect(rt, addr)?;
    stream.write_all(sent.as_bytes())?;
    stream.shutdown(Shutdown::Write)?;
    let mut heard = Vec::new(rt.alloc());
    stream.read_to_end(&mut heard)?;
    Ok(heard)
}

// Whether some bytes are a reply that begins so behind its version, and ends so.
fn is_reply(heard: &[u8], begin: &str, end: &str) -> bool {
    match heard.strip_prefix(b"HTTP/1.".as_slice()) {
        Some([_, b' ', reply @ ..]) => {
            reply.starts_with(begin.as_bytes()) && reply.ends_with(end.as_bytes())
        }
        _ => false,
    }
}

// Whether a row is true of the server at a port.
fn is_true(rt: &HostRuntime, port: u16, row: &str) -> Result<bool, Fail> {
    let Some((sent, reply)) = row.split_once(" => ") else {
        return Err("a row has three parts".into());
    };
    let Some((begin, end)) = reply.split_once(" => ") else {
        return Err("a row has three parts".into());
    };
    let heard = heard(rt, port, sent)?;
    Ok(is_reply(&heard, begin, end))
}

// The row of a path of 60,000 bytes.
fn long_row(alloc: Global) -> Result<String, Fail> {
    let mut path = String::new(alloc);
    for _ in 1..60_000 {
        path.push('a')?;
    }
    Ok(format!(in alloc; "GET /{path} HTTP/1.1\r\nHost: h\r\n\r\n => 404 => \r\n\r\n")?)
}

#[test]
fn each_connection_is_served(rt: HostRuntime) -> Result<(), Fail> {
    let mut accept = TcpAccept::new(rt);
    if accept.listen(&rt, "127.0.0.1:0").is_err() {
        return Err("no port is free".into());
    }
    let port = accept.port().ok_or("it listens")?;
    let store = store(rt.alloc())?;
    let Ok(server) = thread::spawn(&rt, move || served(rt, store, accept, CONNECTIONS)) else {
        return Err("no thread can be made".into());
    };
    for row in ROWS {
        assert!(rt; is_true(&rt, port, row)?, "{row}");
    }
    assert!(rt; is_true(&rt, port, &long_row(rt.alloc())?)?);
    assert!(rt; server.join(&rt) == ServeEnd::Limit);
    Ok(())
}
