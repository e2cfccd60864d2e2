//! The program's commands: each as one call over any source, any sink and any store.
//!
//! Contracts see the words as texts, the input as the bytes that its source has left, and the
//! output as the bytes that its sink took, where they are told (`link_io`). `specs/Words` says
//! which words are a command, `specs/Texts` what is printed, `specs/Show` what an input leads to,
//! `specs/Index` what becomes of a store, `specs/Closure` how requests are answered, and `specs/Serve`
//! what is said of connections. A program makes the real source, sink, store and acceptor, makes one
//! call, prints the status's line and ends with the status.
#![tactic(auto)]

mod closure;
mod files;
mod index;
mod note;
mod serve;
mod serve_words;
mod show;
mod status;
mod texts;
mod words;

pub use files::run_files;
pub use note::Note;
pub use serve::run_serve;
pub use show::run_show;
pub use status::{
    BAD_FILE, LISTEN_FAULT, NOT_ANSWERED, OK, OUT_OF_MEMORY, READ_FAULT, STORE_FAULT,
    TOO_MUCH_INPUT, USAGE, WRITE_FAULT, status_line,
};
