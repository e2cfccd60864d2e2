//! Where a text stands in some bytes.

ghost use Rattle.std.specs.Prelude.{◌≡◌, length, None, Some, IfOk, MatchOption};
ghost use Rattle.mp_codec.specs.Maps.{text_from};
ghost use Rattle.mp_codec.specs.Reading.{Steps};
ghost use Rattle.mp_codec.specs.Span.{part_of, text_at, span_before, span_from, placed_seen, placed_str_from};

use crate::cursor::Cursor;
use crate::fault::FormatFault;
use crate::reading::utf8_text;

/// Where a text stands in some bytes.
#[derive(Clone, Copy, Debug, PartialEq, Eq)]
pub struct Span {
    /// The place of the first byte, counted from 0.
    pub start: usize,
    /// The place behind the last byte.
    pub end: usize,
}

impl Span {
    /// The text that stands here in these bytes, or the empty text where none stands here. The
    /// bytes are tested again, and nothing is copied.
    #[tactic(auto, unfolding(crate::specs::Span::text_at))]
    pub fn text(self, bytes: &[u8]) -> &str
        ensures { result.now ≡ text_at bytes.now self }
    {
        match self.part(bytes) {
            Some(part) => utf8_text(part).unwrap_or(""),
            None => "",
        }
    }

    /// These of the bytes that stand here, or None where they don't have so many. They are not
    /// tested, and nothing is copied.
    pub fn part(self, bytes: &[u8]) -> Option<&[u8]>
        ensures { MatchOption result (part_of bytes.now self ≡ None)
            (λ part. part_of bytes.now self ≡ Some part.now) }
    {
        bytes.get(self.start..self.end)
    }
}

impl<'a> Cursor<'a> {
    /// Where the text that must stand here begins and ends, in the bytes that the cursor goes over;
    /// the cursor goes behind it. Refuses as `text` does.
    #[inline(always)]
    #[tactic(auto, unfolding(crate::specs::Span::span_from))]
    pub fn text_span(&mut self) -> Result<Span, FormatFault>
        ensures { Steps (λ span. span) self.old self.new result (span_from self.old) }
    {
        if let Some((bytes, len)) = self.short_str()
            && utf8_text(bytes).is_some()
        {
            self.pass(len);
            return Ok(self.span_before(bytes.len()));
        }
        let text = self.text()?;
        Ok(self.span_before(text.len()))
    }

    /// The text that must stand here, and where it begins and ends in the bytes that the cursor
    /// goes over; the cursor goes behind it. Refuses as `text` does.
    pub fn placed_text(&mut self) -> Result<(&'a str, Span), FormatFault>
        // It ends where the cursor stands now, and begins as many bytes before as it has.
        ensures place { IfOk result (λ t. t.1 ≡ span_before (length t.0.now) self.new) }

        ensures exact { Steps (λ t. t.0.now) self.old self.new result (text_from self.old) }
    {
        let text = self.text()?;
        Ok((text, self.span_before(text.len())))
    }

    /// The bytes of the str that stands here, and where they begin and end in the bytes that the
    /// cursor goes over, or None of a value of another kind; the cursor goes behind the value.
    /// Refuses as `str_or_skip` does.
    #[inline(always)]
    #[tactic(auto, unfolding(crate::specs::Span::placed_str_from))]
    pub fn placed_str_or_skip(&mut self) -> Result<Option<(&'a [u8], Span)>, FormatFault>
        ensures { Steps placed_seen self.old self.new result (placed_str_from self.old) }
    {
        match self.str_or_skip()? {
            Some(bytes) => Ok(Some((bytes, self.span_before(bytes.len())))),
            None => Ok(None),
        }
    }

    // The span of the last bytes before the cursor, so many.
    #[inline(always)]
    fn span_before(&self, len: usize) -> Span
        ensures { result ≡ span_before len self.now }
    {
        Span {
            start: self.at().saturating_sub(len),
            end: self.at(),
        }
    }
}
