//! The command `index`: the shards and the index of one subdir of a store.
ghost use Rattle.std.specs.Prelude.{◌≡◌, ◌++◌, true, IfOk, OnOk, List, ℕ, decimal};
ghost use Rattle.channel_store.specs.Names.{is_place};
ghost use Rattle.gateway_tool.specs.Index.{summary_text, IndexAnswers};
ghost use Rattle.gateway_tool.specs.Status.{status_write_fault, status_store_fault, HasStatusCause};

use crate::Note;
use crate::status::{BAD_FILE, OK, OUT_OF_MEMORY, STORE_FAULT, WRITE_FAULT};
use channel_indexer::{IndexFault, Summary, index_subdir};
use channel_store::Store;
use itoa::Buffer;
use link_io::{Sink, write_all};
use std::alloc::{AllocError, Global};

// Indexes a place of a store and prints the line of what was done.
pub(crate) fn index<O: Sink, S: Store>(
    alloc: Global,
    place: &str,
    out: &mut O,
    store: &mut S,
) -> (u8, Note)
    requires { is_place place.now ≡ true }
    ensures answers { IndexAnswers place.now (S.files store.old) (S.files store.new)
        (O.written out.old) (O.written out.new) result.0 result.1 }
    ensures store_fault { HasStatusCause status_store_fault
        (S.faults store.old) (S.faults store.new) result.0 }
    ensures write_fault { HasStatusCause status_write_fault
        (O.faults out.old) (O.faults out.new) result.0 }
{
    let summary = match index_subdir(alloc, store, place) {
        Ok(summary) => summary,
        Err(IndexFault::StoreFault) => return (STORE_FAULT, Note::Nothing),
        Err(IndexFault::Memory) => return (OUT_OF_MEMORY, Note::Nothing),
        Err(fault) => return (BAD_FILE, Note::Indexing(fault)),
    };
    let Ok(text) = summary_text(alloc, summary) else {
        return (OUT_OF_MEMORY, Note::Nothing);
    };
    match write_all(out, text.as_slice()) {
        Ok(()) => (OK, Note::Nothing),
        Err(_) => (WRITE_FAULT, Note::Nothing),
    }
}

// The line of a summary.
fn summary_text(alloc: Global, summary: Summary) -> Result<Vec<u8>, AllocError>
    ensures { IfOk result (λ text. text.items ≡ summary_text summary) }
{
    let mut out = Vec::new(alloc);
    put_count(&mut out, "names ", summary.names)?;
    put_count(&mut out, " files ", summary.files)?;
    put_count(&mut out, " written ", summary.written)?;
    put_count(&mut out, " kept ", summary.kept)?;
    out.push(b'\n')?;
    Ok(out)
}

// Appends a word and a number.
fn put_count(out: &mut Vec<u8>, word: &str, n: u64) -> Result<(), AllocError>
    ensures { OnOk result (out.new.items ≡ out.old.items ++ (word.now ++ decimal n)) }
{
    out.extend_from_slice(word.as_bytes())?;
    out.extend_from_slice(Buffer::new().format(n).as_bytes())
}
