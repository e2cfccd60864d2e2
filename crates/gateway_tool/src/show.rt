//! The command `show`: the records of one shard that a spec matches.
ghost use Rattle.std.specs.Prelude.{◌≡◌, ◌≢◌, ◌+◌, ◌∷◌, [], None, IfSome};
ghost use Rattle.std.specs.Io.KnownBytes.{IsAtEnd};
ghost use Rattle.link_io.specs.Transfer.{LosesAtMost};
ghost use Rattle.gateway_words.specs.Limits.{most_served_bytes};
ghost use Rattle.gateway_tool.specs.Words.{shown_spec};
ghost use Rattle.gateway_tool.specs.Status.{status_ok, status_usage, status_read_fault, status_write_fault, status_out_of_memory, status_too_much_input, status_bad_file, IsOneOf, RefusesWords, HasStatusCause};
ghost use Rattle.gateway_tool.specs.Show.{ShowAnswers};

use crate::Note;
use crate::status::{BAD_FILE, OK, OUT_OF_MEMORY, READ_FAULT, TOO_MUCH_INPUT, USAGE, WRITE_FAULT};
use crate::texts::show_text;
use crate::words::{WordsRefusal, shown_spec};
use channel_store::MOST_SERVED_BYTES;
use link_io::{ReadRefusal, Sink, Source, read_to_end, write_all};
use match_spec::Spec;
use mp_codec::Text;
use shard_file::{Shard, ShardRefusal};
use std::alloc::Global;

/// Prints the records that a spec matches from the shard that the input is, by the words `show` and
/// a spec, whose channel and subdir are `-`. The answer is the status, and the fault of an input that is no shard.
///
/// `USAGE` where the words are others: nothing was read. `READ_FAULT` or `TOO_MUCH_INPUT`,
/// whichever is met first in reading. `BAD_FILE` where the input is no shard. `WRITE_FAULT` where
/// a write failed: a part of the text was written, and with every other refusal none of it.
/// `OUT_OF_MEMORY` may come at any place before the first write.
/// (`docs/FORMATS.md`, "Words and printed lines of `show`" and "Statuses".)
pub fn run_show<I: Source, O: Sink>(
    alloc: Global,
    words: &[Text],
    input: &mut I,
    out: &mut O,
) -> (u8, Note)
    // The words. Where they are wrong, and memory lasts, the status is 2.
    ensures usage { result.0 ≡ status_usage → shown_spec words.now ≡ None }
    ensures wrong_words { shown_spec words.now ≡ None
        → RefusesWords result.0 input.old input.new out.old out.new }

    // What was written by the spec of the words, and what a told input leads to.
    ensures answers { IfSome (shown_spec words.now) (λ spec. ShowAnswers spec (I.left input.old)
        (O.written out.old) (O.written out.new) result.0 result.1) }
    ensures noted { result.0 ≢ status_bad_file → result.1 ≡ Note.Nothing }
    // With status 0 the input was read to its end.
    ensures whole { result.0 ≡ status_ok → IsAtEnd (I.left input.new) }

    ensures read_fault { HasStatusCause status_read_fault
        (I.faults input.old) (I.faults input.new) result.0 }
    ensures write_fault { HasStatusCause status_write_fault
        (O.faults out.old) (O.faults out.new) result.0 }
    ensures stops { LosesAtMost (most_served_bytes + 1) (I.left input.old) (I.left input.new) }
    ensures statuses { IsOneOf (status_ok ∷ status_usage ∷ status_read_fault ∷ status_write_fault
        ∷ status_out_of_memory ∷ status_too_much_input ∷ status_bad_file ∷ []) result.0 }
{
    match shown_spec(alloc, words) {
        Ok(spec) => show(alloc, &spec, input, out),
        Err(WordsRefusal::Usage) => (USAGE, Note::Nothing),
        Err(WordsRefusal::Memory) => (OUT_OF_MEMORY, Note::Nothing),
    }
}

// Prints the records that a spec matches from the shard that the input is.
pub(crate) fn show<I: Source, O: Sink>(
    alloc: Global,
    spec: &Spec,
    input: &mut I,
    out: &mut O,
) -> (u8, Note)
    ensures answers { ShowAnswers spec.now (I.left input.old)
        (O.written out.old) (O.written out.new) result.0 result.1 }
    ensures whole { result.0 ≡ status_ok → IsAtEnd (I.left input.new) }
    ensures read_fault { HasStatusCause status_read_fault
        (I.faults input.old) (I.faults input.new) result.0 }
    ensures write_fault { HasStatusCause status_write_fault
        (O.faults out.old) (O.faults out.new) result.0 }
    ensures stops { LosesAtMost (most_served_bytes + 1) (I.left input.old) (I.left input.new) }
{
    let bytes = match read_to_end(alloc, input, MOST_SERVED_BYTES) {
        Ok(bytes) => bytes,
        Err(ReadRefusal::Failed) => return (READ_FAULT, Note::Nothing),
        Err(ReadRefusal::TooMuch) => return (TOO_MUCH_INPUT, Note::Nothing),
        Err(ReadRefusal::Memory) => return (OUT_OF_MEMORY, Note::Nothing),
    };
    let shard = match Shard::read(alloc, bytes) {
        Ok(shard) => shard,
        Err(ShardRefusal::Fault(fault, _)) => return (BAD_FILE, Note::Shard(fault)),
        Err(ShardRefusal::Memory(_)) => return (OUT_OF_MEMORY, Note::Nothing),
    };
    let Ok(text) = show_text(alloc, spec, &shard) else {
        return (OUT_OF_MEMORY, Note::Nothing);
    };
    match write_all(out, text.as_slice()) {
        Ok(()) => (OK, Note::Nothing),
        Err(_) => (WRITE_FAULT, Note::Nothing),
    }
}
