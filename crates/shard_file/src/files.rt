//! Reading a map of files, each once.

ghost use Rattle.std.specs.Prelude.{◌≡◌, ◌||◌, length, IfOk, OnOk, [], List, ℕ};
ghost use Rattle.std.specs.Str.{bytes_eq};
ghost use Rattle.gateway_words.specs.Reading.{Gives};
ghost use Rattle.conda_record.specs.Reading.{fault_of};
ghost use Rattle.mp_codec.specs.Span.{IsIn, span_before};
ghost use Rattle.shard_file.specs.Spans.{rows_at, AreNamed};
ghost use Rattle.shard_file.specs.Names.{has_name, AreRising};
ghost use Rattle.mp_codec.specs.Names.{new_name_from};
ghost use Rattle.shard_file.specs.Reading.{files_after, files_from};

use crate::names::Names;
use crate::spans::FileSpans;
use conda_record::{RecordRefusal, RecordSpans};
use mp_codec::{Cursor, FaultKind, FormatFault, Span, room_for};
use std::alloc::Global;

// The rows of the map of files that stands at the cursor.
#[tactic(auto, unfolding(mp_codec::specs::Maps::map_from, crate::specs::Reading::files_from))]
pub(crate) fn files(
    alloc: Global,
    cur: &mut Cursor<'_>,
    conda: bool,
) -> Result<Vec<FileSpans>, RecordRefusal>
    ghost bytes: { List ℕ }
    requires { IsIn bytes cur.old }
    ensures within { OnOk result (IsIn bytes cur.new) }
    ensures exact { Gives (λ rows. (rows_at bytes rows.items, cur.new)) fault_of result
        (files_from conda cur.old) }
    ensures named { IfOk result (λ rows. AreNamed bytes rows.items) }
{
    let files = cur.map_len()?;
    rows_of_files(alloc, cur, conda, files)
}

// The rows of so many files.
fn rows_of_files(
    alloc: Global,
    cur: &mut Cursor<'_>,
    conda: bool,
    files: u32,
) -> Result<Vec<FileSpans>, RecordRefusal>
    ghost bytes: { List ℕ }
    requires { IsIn bytes cur.old }
    ensures within { OnOk result (IsIn bytes cur.new) }
    ensures exact { Gives (λ rows. (rows_at bytes rows.items, cur.new)) fault_of result
        (files_after conda files [] cur.old) }
    ensures named { IfOk result (λ rows. AreNamed bytes rows.items) }
{
    let mut rows = room_for(alloc, files)?;
    let mut names = Names::new(alloc, files)?;
    for _ in 0..files {
        let (_, file) = new_name(cur, &mut names)?;
        let value = RecordSpans::read(alloc, cur)?;
        rows.push(FileSpans { file, conda, value })?;
    }
    Ok(rows)
}

// The text that stands at the cursor, which is none of the names so far, and where it stands.
#[tactic(auto, unfolding(mp_codec::specs::Names::new_name_from))]
fn new_name<'a>(
    cur: &mut Cursor<'a>,
    names: &mut Names<'a>,
) -> Result<(&'a str, Span), RecordRefusal>
    requires { AreRising names.old }
    ensures place { IfOk result (λ name. name.1 ≡ span_before (length name.0.now) cur.new) }
    ensures exact { Gives (λ name. (name.0.now, cur.new)) fault_of result
        (new_name_from (has_name names.old) cur.old) }
    ensures more { IfOk result (λ name. (q : List ℕ) → has_name names.new q
        ≡ (bytes_eq name.0.now q || has_name names.old q)) }
    ensures rising { OnOk result (AreRising names.new) }
{
    let at = cur.at();
    let (name, file) = cur.placed_text()?;
    if !names.add(name)? {
        return Err(FormatFault::new(at, FaultKind::Repeated).into());
    }
    Ok((name, file))
}
