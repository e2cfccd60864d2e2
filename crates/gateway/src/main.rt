//! The program `gateway`: makes the real source, sink, store and acceptor, makes one call, and ends
//! with its status.
#![tactic(auto)]

use channel_store::FolderStore;
use gateway_tool::{OUT_OF_MEMORY, USAGE, run_files, run_serve, status_line};
use link_io::{StdSink, StdSource};
use mp_codec::Text;
use shard_listener::TcpAccept;
use std::env;
use std::io::{self, ErrorKind};
use std::process::ExitCode;
use std::rt::Env;

fn main(rt: HostRuntime) -> ExitCode {
    let mut input = StdSource::new(rt.stdin());
    let mut out = StdSink::new(rt.stdout());
    let mut accept = TcpAccept::new(rt);
    let mut store = FolderStore::new(rt);
    let status = match words(&rt) {
        Ok(words) if is_serve(words.as_slice()) => {
            run_serve(&rt, rt.alloc(), words.as_slice(), store, &mut accept)
        }
        Ok(words) => {
            run_files(
                rt.alloc(),
                words.as_slice(),
                &mut input,
                &mut out,
                &mut store,
            )
            .0
        }
        Err(error) if error.kind() == ErrorKind::OutOfMemory => OUT_OF_MEMORY,
        Err(_) => USAGE,
    };
    if let Some(line) = status_line(status) {
        let _ = eprintln!(rt; "{line}");
    }
    ExitCode::from(status)
}

// Whether the words ask that files be served.
fn is_serve(words: &[Text]) -> bool {
    matches!(words, [name, ..] if name.as_str() == "serve")
}

// The words behind the program's name; one that isn't UTF-8 is an error.
fn words(rt: &(impl Env + AllocGlobal)) -> io::Result<Vec<Text>> {
    let mut words = Vec::new(rt.alloc());
    for word in env::args(rt)?.skip(1) {
        words.push(Text::copy(rt.alloc(), word.as_str())?)?;
    }
    Ok(words)
}
