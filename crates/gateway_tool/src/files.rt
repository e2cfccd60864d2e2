//! The commands over an input and a store of files: `show`, `index` and `closure`.
ghost use Rattle.gateway_tool.specs.Command.{command_of, FilesAnswers, LeavesAlone};
ghost use Rattle.gateway_tool.specs.Outside.{outside};

use crate::Note;
use crate::closure::closure;
use crate::index::index;
use crate::show::show;
use crate::status::{OUT_OF_MEMORY, USAGE};
use crate::words::{Command, WordsRefusal, command_of};
use channel_store::Store;
use link_io::{Sink, Source};
use mp_codec::Text;
use std::alloc::Global;

/// Does the command that the words are: `show` and a spec, as `run_show` does, `index` and a place
/// of the store, or `closure` and its options. The answer is the status, and what a bad file is.
///
/// `index` reads `repodata.json` of the place, puts a shard for each package name and last the
/// index, and prints a line with the numbers of names, files, shards written and shards kept. It
/// reads no input. `USAGE` where the words are of no command; `STORE_FAULT` where a call of the store
/// failed; `BAD_FILE` where `repodata.json` is absent, too long or not indexable, or makes a shard
/// or an index that is too long; `WRITE_FAULT` where a write failed, with all files put.
/// `OUT_OF_MEMORY` may come at any place.
///
/// `closure` reads an input of requests, one a line, and then the index and the shards that each of
/// them needs, and writes the answers. `NOT_ANSWERED` where a line was refused: the text has its
/// refusal. `READ_FAULT` or `TOO_MUCH_INPUT` (more than 1,048,576 bytes, or 4,096 lines) as reading
/// the whole input meets them; `BAD_FILE` at the first file that is bad, by lines and then in the order
/// of the needs. Except with `WRITE_FAULT` all of the text was written, or none. (`docs/FORMATS.md`, "Indexing" and "Statuses".)
pub fn run_files<I: Source, O: Sink, S: Store>(
    alloc: Global,
    words: &[Text],
    input: &mut I,
    out: &mut O,
    store: &mut S,
) -> (u8, Note)
    // The status, the note and what becomes of what is outside, by what the words ask for.
    ensures answers { FilesAnswers words.now
        (outside (I.left input.old) (O.written out.old) (S.files store.old)
        (I.faults input.old) (O.faults out.old) (S.faults store.old))
        (outside (I.left input.new) (O.written out.new) (S.files store.new)
        (I.faults input.new) (O.faults out.new) (S.faults store.new))
        result.0 result.1 }
    // `show` leaves the store, `index` the input, and wrong words all.
    ensures leaves { LeavesAlone (command_of words.now)
        input.old input.new out.old out.new store.old store.new }
{
    match command_of(alloc, words) {
        Ok(Command::Show(spec)) => show(alloc, &spec, input, out),
        Ok(Command::Index(place)) => index(alloc, place, out, store),
        Ok(Command::Closure(asked)) => closure(alloc, &asked, input, out, store),
        Err(WordsRefusal::Usage) => (USAGE, Note::Nothing),
        Err(WordsRefusal::Memory) => (OUT_OF_MEMORY, Note::Nothing),
    }
}
