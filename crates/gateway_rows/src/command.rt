//! Runs of the commands.
ghost use Rattle.std.specs.Prelude.{◌≡◌, ◌≢◌, ◌≤◌, ◌∷◌, [], None, Some, IfOk, IfSome, OnErr};
ghost use Rattle.gateway_tool.specs.Words.{spec_word};
ghost use Rattle.gateway_tool.specs.Status.{IsOneOf, HasStatusCause};
ghost use Rattle.gateway_tool.specs.Show.{ShowAnswers};
ghost use Rattle.gateway_tool.specs.declared.note.Note.TheVariants.{Nothing};
ghost use Rattle.gateway_tool.specs.declared.status.TheConstants.{OK, USAGE, READ_FAULT, WRITE_FAULT, OUT_OF_MEMORY, TOO_MUCH_INPUT, BAD_FILE};

use crate::{source, words_of};
use gateway_tool::{Note, run_show};
use link_io::Sink;
use std::alloc::{AllocError, Global};

/// What the command `show` with this spec answers over these bytes, which come at once: the status,
/// and the fault of bytes that are no shard. Its text goes into `out`.
///
/// `AllocError` where the memory for the words and the source isn't there: nothing was written.
pub fn show<O: Sink>(
    alloc: Global,
    spec: &str,
    bytes: Vec<u8>,
    out: &mut O,
) -> Result<(u8, Note), AllocError>
    ensures err { OnErr result (out.new ≡ out.old) }

    // The spec.
    ensures usage { IfOk result (λ answer. answer.0 ≡ USAGE → spec_word spec.now ≡ None) }
    ensures wrong_spec { IfOk result (λ answer. spec_word spec.now ≡ None
        → IsOneOf (USAGE ∷ OUT_OF_MEMORY ∷ []) answer.0) }

    // What was written by the spec, and what the bytes lead to.
    ensures answers { IfOk result (λ answer. IfSome (spec_word spec.now) (λ asked. ShowAnswers asked
        (Some bytes.items) (O.written out.old) (O.written out.new) answer.0 answer.1)) }
    ensures noted { IfOk result (λ answer. answer.0 ≢ BAD_FILE → answer.1 ≡ Nothing) }

    ensures write_fault { IfOk result (λ answer. HasStatusCause WRITE_FAULT
        (O.faults out.old) (O.faults out.new) answer.0) }
    ensures statuses { IfOk result (λ answer. IsOneOf (OK ∷ USAGE ∷ READ_FAULT ∷ WRITE_FAULT
        ∷ OUT_OF_MEMORY ∷ TOO_MUCH_INPUT ∷ BAD_FILE ∷ []) answer.0) }
{
    let words = words_of(alloc, &["show", spec])?;
    let mut input = source(alloc, bytes, usize::MAX, &[])?;
    Ok(run_show(alloc, words.as_slice(), &mut input, out))
}
