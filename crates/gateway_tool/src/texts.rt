//! The printed text of records.
ghost use Rattle.std.specs.Prelude.{◌≡◌, ◌++◌, IfOk, OnOk};
ghost use Rattle.shard_file.specs.Seen.{row_seen};
ghost use Rattle.gateway_tool.specs.Texts.{depend_line, row_text, is_asked, show_text};

use answer_text::{put_record_line, put_shown};
use match_spec::Spec;
use shard_file::{Shard, ShardRow};
use std::alloc::{AllocError, Global};

// The text of a shard's rows that a spec matches.
pub(crate) fn show_text(alloc: Global, spec: &Spec, shard: &Shard) -> Result<Vec<u8>, AllocError>
    ensures { IfOk result (λ text. text.items ≡ show_text spec.now shard.now.rows) }
{
    let mut out = Vec::new(alloc);
    for i in 0..shard.len() {
        if let Some(row) = shard.row(i) {
            if is_asked(row, spec) {
                put_row(&mut out, row)?;
            }
        }
    }
    Ok(out)
}

// Whether a spec matches a row, in the channel and the subdir that `-` stands for.
fn is_asked(row: ShardRow<'_>, spec: &Spec) -> bool
    ensures { result ≡ is_asked spec.now (row_seen row.entry) }
{
    spec.matches(row.view, "-", "-", row.file)
}

// Appends the lines of a row.
fn put_row(out: &mut Vec<u8>, row: ShardRow<'_>) -> Result<(), AllocError>
    ensures { OnOk result (out.new.items ≡ out.old.items ++ row_text (row_seen row.entry)) }
{
    put_record_line(out, row.file, row.view)?;
    for i in 0..row.view.depends_len() {
        if let Some(text) = row.view.depend(i) {
            put_depend(out, text)?;
        }
    }
    Ok(())
}

fn put_depend(out: &mut Vec<u8>, text: &str) -> Result<(), AllocError>
    ensures { OnOk result (out.new.items ≡ out.old.items ++ depend_line text.now) }
{
    out.extend_from_slice(b"  ")?;
    put_shown(out, text)?;
    out.push(b'\n')?;
    Ok(())
}
