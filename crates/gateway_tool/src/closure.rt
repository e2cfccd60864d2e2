//! The command `closure`: the records that requests can reach in channels of a store.
ghost use Rattle.std.specs.Prelude.{◌≡◌, ◌≤◌, ◌+◌, false, true, IfOk, IfSome, IsErrOf, OnOk};
ghost use Rattle.std.specs.Io.KnownBytes.{IsAtEnd};
ghost use Rattle.gateway_words.specs.Causes.{Rose};
ghost use Rattle.link_io.specs.Transfer.{LosesAtMost};
ghost use Rattle.gateway_tool.specs.Closure.{answered_status, is_too_much, most_input_bytes, ClosureAnswers};
ghost use Rattle.gateway_tool.specs.Outside.{outside};
ghost use Rattle.gateway_tool.specs.Show.{IsWhole};
ghost use Rattle.gateway_tool.specs.Status.{status_read_fault, status_store_fault, status_write_fault, HasStatusCause};

use crate::Note;
use crate::status::{
    BAD_FILE, NOT_ANSWERED, OK, OUT_OF_MEMORY, READ_FAULT, STORE_FAULT, TOO_MUCH_INPUT, WRITE_FAULT,
};
use channel_store::Store;
use link_io::{ReadRefusal, Sink, Source, read_to_end, write_all};
use std::alloc::Global;
use store_closure::{Stop, StoreRequests, has_more_lines};

// The most bytes of an input of requests.
const MOST_INPUT_BYTES: usize = 1_048_576;

// The most lines of it.
const MOST_INPUT_LINES: u64 = 4096;

// Answers the requests of an input, one a line, over the channels of a store.
pub(crate) fn closure<I: Source, O: Sink, S: Store>(
    alloc: Global,
    asked: &StoreRequests,
    input: &mut I,
    out: &mut O,
    store: &mut S,
) -> (u8, Note)
    ensures answers { ClosureAnswers asked.now
        (outside (I.left input.old) (O.written out.old) (S.files store.old)
        (I.faults input.old) (O.faults out.old) (S.faults store.old))
        (outside (I.left input.new) (O.written out.new) (S.files store.new)
        (I.faults input.new) (O.faults out.new) (S.faults store.new))
        result.0 result.1 }
    ensures read_fault { HasStatusCause status_read_fault
        (I.faults input.old) (I.faults input.new) result.0 }
    ensures write_fault { HasStatusCause status_write_fault
        (O.faults out.old) (O.faults out.new) result.0 }
    ensures store_fault { HasStatusCause status_store_fault
        (S.faults store.old) (S.faults store.new) result.0 }
    ensures stops { LosesAtMost (most_input_bytes + 1) (I.left input.old) (I.left input.new) }
{
    let bytes = match requests(alloc, input) {
        Ok(bytes) => bytes,
        Err(ReadRefusal::Failed) => return (READ_FAULT, Note::Nothing),
        Err(ReadRefusal::TooMuch) => return (TOO_MUCH_INPUT, Note::Nothing),
        Err(ReadRefusal::Memory) => return (OUT_OF_MEMORY, Note::Nothing),
    };
    let answers = match asked.answers(alloc, store, bytes.as_slice()) {
        Ok(answers) => answers,
        Err(Stop::Bad(bad)) => return (BAD_FILE, Note::File(bad.name, bad.why)),
        Err(Stop::Failed) => return (STORE_FAULT, Note::Nothing),
        Err(Stop::Memory) => return (OUT_OF_MEMORY, Note::Nothing),
    };
    match write_all(out, answers.text.as_slice()) {
        Ok(()) => (answered_status(answers.refused), Note::Nothing),
        Err(_) => (WRITE_FAULT, Note::Nothing),
    }
}

// The status of answers.
fn answered_status(refused: bool) -> u8
    ensures { result ≡ answered_status refused }
{
    if refused { NOT_ANSWERED } else { OK }
}

// All bytes of an input of requests.
fn requests<I: Source>(alloc: Global, input: &mut I) -> Result<Vec<u8>, ReadRefusal>
    ensures ok { IfOk result (λ bytes. IsWhole (I.left input.old) bytes.items) }
    ensures end { OnOk result (IsAtEnd (I.left input.new)) }
    ensures within { IfOk result (λ bytes. is_too_much bytes.items ≡ false) }
    ensures too_much { IsErrOf result ReadRefusal.TooMuch
        → IfSome (I.left input.old) (λ left. is_too_much left ≡ true) }
    ensures stops { LosesAtMost (most_input_bytes + 1) (I.left input.old) (I.left input.new) }
    ensures later { I.faults input.old ≤ I.faults input.new }
    ensures cause { IsErrOf result ReadRefusal.Failed
        → Rose (I.faults input.old) (I.faults input.new) }
{
    let bytes = read_to_end(alloc, input, MOST_INPUT_BYTES)?;
    if has_more_lines(&bytes, MOST_INPUT_LINES) {
        return Err(ReadRefusal::TooMuch);
    }
    Ok(bytes)
}
