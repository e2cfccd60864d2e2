//! Reading where the values of a record's keys stand, by their kinds.

ghost use Rattle.std.specs.Prelude.{◌≡◌};
ghost use Rattle.gateway_words.specs.Reading.{Gives};
ghost use Rattle.mp_codec.specs.Reading.{Advances};
ghost use Rattle.conda_record.specs.Digests.{span_behind, digest_span_from};
ghost use Rattle.conda_record.specs.Reading.{fault_of};
ghost use Rattle.conda_record.specs.Placing.{optional_span_from, spans_at, spans_from};
ghost use Rattle.conda_record.specs.Found.{spans_read};

use crate::refusal::RecordRefusal;
use mp_codec::{Cursor, FormatFault, Head, Span, room_for, utf8_text};
use std::alloc::Global;

// The span of the text that stands at the cursor, or None of a value of another kind.
#[tactic(auto, unfolding(crate::specs::Placing::optional_span_from))]
pub(crate) fn span_or_skip(cur: &mut Cursor<'_>) -> Result<Option<Span>, FormatFault>
    ensures { Advances (λ span. span) cur.new result (optional_span_from cur.old) }
{
    let Some((bytes, span)) = cur.placed_str_or_skip()? else {
        return Ok(None);
    };
    match utf8_text(bytes) {
        Some(_) => Ok(Some(span)),
        None => Ok(None),
    }
}

// The spans of the texts of the list that stands at the cursor, or None of a value of another kind.
#[tactic(auto, unfolding(crate::specs::Texts::listed_from))]
pub(crate) fn spans_or_skip(
    alloc: Global,
    cur: &mut Cursor<'_>,
) -> Result<Option<Vec<Span>>, RecordRefusal>
    ensures { Gives (λ spans. (spans_read spans, cur.new)) fault_of result (spans_from cur.old) }
{
    let mut ahead = cur.copy();
    if let Head::Array(len) = ahead.head()? {
        match spans(alloc, &mut ahead, len) {
            Ok(spans) => {
                *cur = ahead;
                return Ok(Some(spans));
            }
            Err(RecordRefusal::Memory) => return Err(RecordRefusal::Memory),
            Err(RecordRefusal::Fault(_)) => {}
        }
    }
    cur.skip()?;
    Ok(None)
}

// The spans of so many texts.
fn spans(alloc: Global, cur: &mut Cursor<'_>, len: u32) -> Result<Vec<Span>, RecordRefusal>
    ensures { Gives (λ spans. (spans.items, cur.new)) fault_of result (spans_at len cur.old) }
{
    let mut spans = room_for(alloc, len)?;
    for _ in 0..len {
        spans.push(cur.text_span()?)?;
    }
    Ok(spans)
}

// Where the bytes or the hexadecimal digits of a digest of so many bytes stand at the cursor, or None
// of a value of another kind. Digits are not decoded.
#[tactic(auto, unfolding(crate::specs::Digests::digest_span_from))]
pub(crate) fn digest_span_or_skip(
    cur: &mut Cursor<'_>,
    digest_len: u16,
) -> Result<Option<Span>, FormatFault>
    ensures { Advances (λ span. span) cur.new result (digest_span_from digest_len cur.old) }
{
    let mut ahead = cur.copy();
    match ahead.head()? {
        Head::Bin(len) => {
            let span = payload_span(&mut ahead, len)?;
            *cur = ahead;
            Ok((len == u32::from(digest_len)).then_some(span))
        }
        Head::Str(len) => {
            let span = payload_span(&mut ahead, len)?;
            *cur = ahead;
            Ok((len == u32::from(digest_len) + u32::from(digest_len)).then_some(span))
        }
        Head::Nil | Head::Bool(_) | Head::Int(_) | Head::Float => {
            cur.skip()?;
            Ok(None)
        }
        Head::Array(_) | Head::Map(_) | Head::Ext(_) => {
            cur.skip()?;
            Ok(None)
        }
    }
}

// The span of so many bytes, which the cursor goes behind.
#[tactic(auto, unfolding(crate::specs::Digests::span_behind))]
fn payload_span(cur: &mut Cursor<'_>, len: u32) -> Result<Span, FormatFault>
    ensures { Advances (λ span. span) cur.new result (span_behind len cur.old) }
{
    let start = cur.at();
    cur.take(len)?;
    Ok(Span {
        start,
        end: cur.at(),
    })
}
