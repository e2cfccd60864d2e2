//! The lines of answers.
ghost use Rattle.std.specs.Prelude.{◌≡◌, [], ◌∷◌, ◌++◌, length, take, decimal, OnOk, OnErr};
ghost use Rattle.std.specs.List.{flat_map};
ghost use Rattle.gateway_words.specs.Ascii.{newline, slash};
ghost use Rattle.closure_plan.specs.Shown.{row_shown};
ghost use Rattle.answer_text.specs.Text.{shown};
ghost use Rattle.answer_text.specs.Answers.{answer_text, found_line, ok_line, refused_line};

use crate::line::put_record_line;
use crate::text::put_shown;
use closure_plan::{Answer, AnswerRow, LeafHolder, PinHolder};
use itoa::Buffer;
use mp_codec::cut_back;
use std::alloc::AllocError;

/// Appends the lines of the answer to the request of a number: `request NUMBER ok ROWS`, and for each
/// row, in the order of the answer, `CHANNEL/SUBDIR/FILE VERSION BUILD BUILD_NUMBER`.
///
/// At want of memory the vector is as before.
pub fn put_answer<P: PinHolder, H: LeafHolder>(
    out: &mut Vec<u8>,
    number: u64,
    answer: &Answer<P, H>,
) -> Result<(), AllocError>
    ensures ok { OnOk result (out.new.items
        ≡ out.old.items ++ answer_text number answer.now.rows) }
    ensures unchanged { OnErr result (out.new.items ≡ out.old.items) }
{
    let old = out.len();
    let outcome = put_lines(out, number, answer);
    cut_back(out, old, outcome)
}

/// Appends the line of the request of a number that was refused: `request NUMBER refused SPEC FAULT`.
///
/// At want of memory the vector is as before.
pub fn put_refused(out: &mut Vec<u8>, number: u64, spec: u64, fault: u8) -> Result<(), AllocError>
    ensures ok { OnOk result (out.new.items
        ≡ out.old.items ++ refused_line number spec fault) }
    ensures unchanged { OnErr result (out.new.items ≡ out.old.items) }
{
    let old = out.len();
    let outcome = put_refused_line(out, number, spec, fault);
    cut_back(out, old, outcome)
}

// Appends the lines of an answer; at want of memory some of them may stand.
fn put_lines<P: PinHolder, H: LeafHolder>(
    out: &mut Vec<u8>,
    number: u64,
    answer: &Answer<P, H>,
) -> Result<(), AllocError>
    ensures ok { OnOk result (out.new.items
        ≡ out.old.items ++ answer_text number answer.now.rows) }
    ensures kept { OnErr result (take (length out.old.items) out.new.items ≡ out.old.items) }
{
    put_ok_line(out, number, answer.len())?;
    put_rows(out, answer)?;
    Ok(())
}

// Appends the first line of an answer; at want of memory a front of it may stand.
fn put_ok_line(out: &mut Vec<u8>, number: u64, rows: usize) -> Result<(), AllocError>
    ensures ok { OnOk result (out.new.items ≡ out.old.items ++ ok_line number rows) }
    ensures kept { OnErr result (take (length out.old.items) out.new.items ≡ out.old.items) }
{
    put_count(out, "request ", number)?;
    put_count(out, " ok ", rows as u64)?;
    out.push(b'\n')?;
    Ok(())
}

// Appends the line of a refused request; at want of memory a front of it may stand.
fn put_refused_line(out: &mut Vec<u8>, number: u64, spec: u64, fault: u8) -> Result<(), AllocError>
    ensures ok { OnOk result (out.new.items
        ≡ out.old.items ++ refused_line number spec fault) }
    ensures kept { OnErr result (take (length out.old.items) out.new.items ≡ out.old.items) }
{
    put_count(out, "request ", number)?;
    put_count(out, " refused ", spec)?;
    put_count(out, " ", fault as u64)?;
    out.push(b'\n')?;
    Ok(())
}

// Appends the lines of the rows; at want of memory some of them may stand.
fn put_rows<P: PinHolder, H: LeafHolder>(
    out: &mut Vec<u8>,
    answer: &Answer<P, H>,
) -> Result<(), AllocError>
    ensures ok { OnOk result (out.new.items
        ≡ out.old.items ++ flat_map found_line answer.now.rows) }
    ensures kept { OnErr result (take (length out.old.items) out.new.items ≡ out.old.items) }
{
    for i in 0..answer.len() {
        if let Some(row) = answer.row(i) {
            put_row(out, row)?;
        }
    }
    Ok(())
}

// Appends the line of a row; at want of memory a front of it may stand.
fn put_row(out: &mut Vec<u8>, row: AnswerRow<'_>) -> Result<(), AllocError>
    ensures ok { OnOk result (out.new.items
        ≡ out.old.items ++ found_line (row_shown row.entry)) }
    ensures kept { OnErr result (take (length out.old.items) out.new.items ≡ out.old.items) }
{
    put_part(out, row.channel)?;
    put_part(out, row.subdir)?;
    put_record_line(out, row.file, row.view)?;
    Ok(())
}

// Appends a text and a `/`; at want of memory a front of them may stand.
fn put_part(out: &mut Vec<u8>, text: &str) -> Result<(), AllocError>
    ensures ok { OnOk result (out.new.items ≡ out.old.items ++ (shown text.now ++ slash ∷ [])) }
    ensures kept { OnErr result (take (length out.old.items) out.new.items ≡ out.old.items) }
{
    put_shown(out, text)?;
    out.push(b'/')?;
    Ok(())
}

// Appends a word and a number; at want of memory the word may stand.
fn put_count(out: &mut Vec<u8>, word: &str, n: u64) -> Result<(), AllocError>
    ensures ok { OnOk result (out.new.items ≡ out.old.items ++ (word.now ++ decimal n)) }
    ensures kept { OnErr result (take (length out.old.items) out.new.items ≡ out.old.items) }
{
    out.extend_from_slice(word.as_bytes())?;
    out.extend_from_slice(Buffer::new().format(n).as_bytes())?;
    Ok(())
}
