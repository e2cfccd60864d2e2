//! Records with texts of their own, copied from where they stand.

ghost use Rattle.std.specs.Prelude.{◌≡◌, IfOk, IfErr, IfSome, OnErr, MatchResult};
ghost use Rattle.std.specs.Option.{option_copied};
ghost use Rattle.gateway_words.specs.Places.{Position};
ghost use Rattle.gateway_words.specs.Reading.{Gives};
ghost use Rattle.mp_codec.specs.Fault.{IsFirstFault, WithBreaks};
ghost use Rattle.conda_record.specs.Record.{Fields, RecordFault, RecordAt};
ghost use Rattle.conda_record.specs.Reading.{fault_of, record_from};
ghost use Rattle.conda_record.specs.View.{seen};

use crate::record::PackageRecord;
use crate::refusal::RecordRefusal;
use crate::spans::RecordSpans;
use crate::view::RecordView;
use mp_codec::{Cursor, Text};
use std::alloc::{AllocError, Global};

impl PackageRecord {
    /// A record with these fields, in memory of its own.
    pub fn copy(alloc: Global, view: RecordView<'_>) -> Result<PackageRecord, AllocError>
        ensures { IfOk result (λ copy. copy ≡ seen view.entry) }
    {
        Ok(PackageRecord {
            name: Text::copy(alloc, view.name())?,
            version: Text::copy(alloc, view.version())?,
            build: Text::copy(alloc, view.build())?,
            build_number: view.build_number(),
            depends: depends(alloc, view)?,
            constrains: constrains(alloc, view)?,
            subdir: copied(alloc, view.subdir())?,
            md5: view.md5(),
            sha256: view.sha256(),
            size: view.size(),
            timestamp: view.timestamp(),
            license: copied(alloc, view.license())?,
            noarch: copied(alloc, view.noarch())?,
        })
    }

    /// The record that stands at the cursor, which goes behind it.
    ///
    /// `Fault` with the first fault that stands in it: a value that breaks off, a record that is no
    /// map, a required key that is missing or whose value is no text, a known key that stands twice.
    /// Places are counted from the start of the cursor's bytes; what follows the record is no fault.
    /// `Memory` where memory runs out. After a refusal the cursor has not moved.
    /// (CEP 16, "package records"; `docs/FORMATS.md`, "Package records".)
    pub fn read(alloc: Global, cur: &mut Cursor<'_>) -> Result<PackageRecord, RecordRefusal>
        // What is read stands there, and nothing is wrong with it.
        ensures found { IfOk result (λ r. RecordAt cur.old r cur.new) }
        // What stands there with nothing wrong is read, unless memory runs out.
        ensures only { (fields : Fields) (there : Position) → RecordAt cur.old fields there
            → MatchResult result (λ r. (r ≡ fields) × (cur.new ≡ there))
            (λ e. e ≡ RecordRefusal.Memory) }
        // A fault is the first one.
        ensures fault { IfErr result (λ e.
            IfSome (fault_of e) (IsFirstFault (WithBreaks RecordFault cur.old))) }
        ensures unchanged { OnErr result (cur.new ≡ cur.old) }

        ensures exact { Gives (λ r. (r, cur.new)) fault_of result (record_from cur.old) }
    {
        let mut ahead = cur.copy();
        let spans = RecordSpans::read(alloc, &mut ahead)?;
        let record = PackageRecord::copy(alloc, spans.view(cur.bytes()))?;
        *cur = ahead;
        Ok(record)
    }
}

// A copy of a text, if it is there.
fn copied(alloc: Global, text: Option<&str>) -> Result<Option<Text>, AllocError>
    ensures { IfOk result (λ copy. copy ≡ option_copied text.entry) }
{
    match text {
        Some(text) => Ok(Some(Text::copy(alloc, text)?)),
        None => Ok(None),
    }
}

// Copies of the texts of `depends`.
fn depends(alloc: Global, view: RecordView<'_>) -> Result<Vec<Text>, AllocError>
    ensures { IfOk result (λ texts. texts.items ≡ (seen view.entry).depends) }
{
    let mut texts = Vec::with_capacity(alloc, view.depends_len())?;
    for i in 0..view.depends_len() {
        if let Some(text) = view.depend(i) {
            texts.push(Text::copy(alloc, text)?)?;
        }
    }
    Ok(texts)
}

// Copies of the texts of `constrains`.
fn constrains(alloc: Global, view: RecordView<'_>) -> Result<Vec<Text>, AllocError>
    ensures { IfOk result (λ texts. texts.items ≡ (seen view.entry).constrains) }
{
    let mut texts = Vec::with_capacity(alloc, view.constrains_len())?;
    for i in 0..view.constrains_len() {
        if let Some(text) = view.constrain(i) {
            texts.push(Text::copy(alloc, text)?)?;
        }
    }
    Ok(texts)
}
