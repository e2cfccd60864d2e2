//! A record to look at.

ghost use Rattle.std.specs.Prelude.{◌≡◌, ◌==◌, if◌then◌else◌, length, Some, None, option_and_then};
ghost use Rattle.std.specs.Option.{option_copied, option_map};
ghost use Rattle.mp_codec.specs.Span.{text_at};
ghost use Rattle.conda_record.specs.Digests.{digest_in_bytes, digest_at};

use crate::record::PackageRecord;
use crate::spans::RecordSpans;
use hex::FromHex;
use mp_codec::Span;

/// The fields of a record, to look at. Contracts see them by `seen` (`specs/View`).
#[derive(Clone, Copy)]
pub struct RecordView<'a> {
    shown: Shown<'a>,
}

// What is looked at.
#[derive(Clone, Copy)]
enum Shown<'a> {
    // A record with texts of its own.
    Record(&'a PackageRecord),
    // A record as spans of some bytes.
    Spans(&'a RecordSpans, &'a [u8]),
}

#[tactic(auto, unfolding(crate::specs::View::seen))]
impl PackageRecord {
    ghost use Rattle.std.specs.Prelude.{◌≡◌};
    ghost use Rattle.conda_record.specs.View.{seen};

    /// The record's fields, to look at.
    pub fn view(&self) -> RecordView<'_>
        ensures { seen result ≡ self.now }
    {
        RecordView {
            shown: Shown::Record(self),
        }
    }
}

#[tactic(auto, unfolding(crate::specs::View::seen))]
impl RecordSpans {
    ghost use Rattle.std.specs.Prelude.{◌≡◌};
    ghost use Rattle.std.specs.Prelude.{Ok};
    ghost use Rattle.gateway_words.specs.Places.{Position};
    ghost use Rattle.mp_codec.specs.Span.{IsIn};
    ghost use Rattle.conda_record.specs.Record.{RecordAt};
    ghost use Rattle.conda_record.specs.Places.{fields_at};
    ghost use Rattle.conda_record.specs.Placing.{places_from};
    ghost use Rattle.conda_record.specs.View.{seen};

    /// The record's fields in the bytes in which it was read, to look at: `bytes` are those that the
    /// cursor went over. In other bytes it shows what stands at its places there. Nothing is copied.
    pub fn view<'a>(&'a self, bytes: &'a [u8]) -> RecordView<'a>
        // In the bytes in which it was read it shows the record that stands there.
        ensures shown { (here there : Position) → IsIn bytes.now here
            → places_from here ≡ Ok (self.now, there) → RecordAt here (seen result) there }

        ensures exact { seen result ≡ fields_at bytes.now self.now }
    {
        RecordView {
            shown: Shown::Spans(self, bytes),
        }
    }
}

#[tactic(auto, unfolding(crate::specs::View::seen, crate::specs::Places::fields_at))]
impl<'a> RecordView<'a> {
    ghost use Rattle.std.specs.Prelude.{◌≡◌, length, slice_get, Some, None};
    ghost use Rattle.std.specs.Option.{option_copied};
    ghost use Rattle.conda_record.specs.View.{seen};

    /// The name of the package.
    pub fn name(self) -> &'a str
        ensures { result.now ≡ (seen self.entry).name }
    {
        match self.shown {
            Shown::Record(record) => record.name.as_str(),
            Shown::Spans(spans, bytes) => spans.name.text(bytes),
        }
    }

    /// The text of the version, which need not be a version.
    pub fn version(self) -> &'a str
        ensures { result.now ≡ (seen self.entry).version }
    {
        match self.shown {
            Shown::Record(record) => record.version.as_str(),
            Shown::Spans(spans, bytes) => spans.version.text(bytes),
        }
    }

    /// The build string.
    pub fn build(self) -> &'a str
        ensures { result.now ≡ (seen self.entry).build }
    {
        match self.shown {
            Shown::Record(record) => record.build.as_str(),
            Shown::Spans(spans, bytes) => spans.build.text(bytes),
        }
    }

    /// The build number.
    pub fn build_number(self) -> u64
        ensures { result ≡ (seen self.entry).build_number }
    {
        match self.shown {
            Shown::Record(record) => record.build_number,
            Shown::Spans(spans, _) => spans.build_number,
        }
    }

    /// How many texts `depends` has.
    pub fn depends_len(self) -> usize
        ensures { result ≡ length (seen self.entry).depends }
    {
        match self.shown {
            Shown::Record(record) => record.depends.len(),
            Shown::Spans(spans, _) => spans.depends.len(),
        }
    }

    /// The text of `depends` at a place, counted from 0.
    /// None where the place is not below `depends_len`.
    pub fn depend(self, i: usize) -> Option<&'a str>
        ensures { option_copied result ≡ slice_get (seen self.entry).depends i }
    {
        match self.shown {
            Shown::Record(record) => record.depends.get(i).map(|text| text.as_str()),
            Shown::Spans(spans, bytes) => text_if(bytes, spans.depends.get(i).copied()),
        }
    }

    /// How many texts `constrains` has.
    pub fn constrains_len(self) -> usize
        ensures { result ≡ length (seen self.entry).constrains }
    {
        match self.shown {
            Shown::Record(record) => record.constrains.len(),
            Shown::Spans(spans, _) => spans.constrains.len(),
        }
    }

    /// The text of `constrains` at a place, counted from 0.
    /// None where the place is not below `constrains_len`.
    pub fn constrain(self, i: usize) -> Option<&'a str>
        ensures { option_copied result ≡ slice_get (seen self.entry).constrains i }
    {
        match self.shown {
            Shown::Record(record) => record.constrains.get(i).map(|text| text.as_str()),
            Shown::Spans(spans, bytes) => text_if(bytes, spans.constrains.get(i).copied()),
        }
    }

    /// The platform folder that the record names, if it names one.
    pub fn subdir(self) -> Option<&'a str>
        ensures { option_copied result ≡ (seen self.entry).subdir }
    {
        match self.shown {
            Shown::Record(record) => record.subdir.as_ref().map(|text| text.as_str()),
            Shown::Spans(spans, bytes) => text_if(bytes, spans.subdir),
        }
    }

    /// The MD5 digest of the package file, if it is there.
    pub fn md5(self) -> Option<[u8; 16]>
        ensures { result ≡ (seen self.entry).md5 }
    {
        match self.shown {
            Shown::Record(record) => record.md5,
            Shown::Spans(spans, bytes) => digest_if(bytes, spans.md5),
        }
    }

    /// The SHA-256 digest of the package file, if it is there.
    pub fn sha256(self) -> Option<[u8; 32]>
        ensures { result ≡ (seen self.entry).sha256 }
    {
        match self.shown {
            Shown::Record(record) => record.sha256,
            Shown::Spans(spans, bytes) => digest_if(bytes, spans.sha256),
        }
    }

    /// The size of the package file in bytes, if it is there.
    pub fn size(self) -> Option<u64>
        ensures { result ≡ (seen self.entry).size }
    {
        match self.shown {
            Shown::Record(record) => record.size,
            Shown::Spans(spans, _) => spans.size,
        }
    }

    /// When the package was built, in milliseconds since 1970, if it is there.
    pub fn timestamp(self) -> Option<u64>
        ensures { result ≡ (seen self.entry).timestamp }
    {
        match self.shown {
            Shown::Record(record) => record.timestamp,
            Shown::Spans(spans, _) => spans.timestamp,
        }
    }

    /// The license, if it is there.
    pub fn license(self) -> Option<&'a str>
        ensures { option_copied result ≡ (seen self.entry).license }
    {
        match self.shown {
            Shown::Record(record) => record.license.as_ref().map(|text| text.as_str()),
            Shown::Spans(spans, bytes) => text_if(bytes, spans.license),
        }
    }

    /// The kind of a package that serves every platform, if it is there.
    pub fn noarch(self) -> Option<&'a str>
        ensures { option_copied result ≡ (seen self.entry).noarch }
    {
        match self.shown {
            Shown::Record(record) => record.noarch.as_ref().map(|text| text.as_str()),
            Shown::Spans(spans, bytes) => text_if(bytes, spans.noarch),
        }
    }
}

// The text at a span of some bytes, if there is a span.
fn text_if(bytes: &[u8], span: Option<Span>) -> Option<&str>
    ensures { option_copied result ≡ option_map (text_at bytes.now) span }
{
    match span {
        Some(span) => Some(span.text(bytes)),
        None => None,
    }
}

// The digest at a span of some bytes, if there is a span and one stands there.
fn digest_if<const N: usize>(bytes: &[u8], span: Option<Span>) -> Option<[u8; N]>
    ensures { result ≡ option_and_then (digest_at N bytes.now) span }
{
    digest_in(span?.part(bytes)?)
}

// The digest that some bytes are, as bytes or as hexadecimal digits.
fn digest_in<const N: usize>(bytes: &[u8]) -> Option<[u8; N]>
    ensures { result ≡ digest_in_bytes N bytes.now }
{
    if bytes.len() != N {
        return <[u8; N] as FromHex>::from_hex(bytes).ok();
    }
    let mut array = [0; N];
    array.copy_from_slice(bytes);
    Some(array)
}
