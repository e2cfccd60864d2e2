//! Writing a record behind what a vector holds.

ghost use Rattle.std.specs.Prelude.{◌≡◌, ◌&&◌, ◌+◌, ◌<◌, ◌≤◌, ◌^◌, ◌++◌, ℕ, Bool, Some, None, IfSome, OnOk, OnErr, length, take, vec_len, codes};
ghost use Rattle.std.specs.Option.{option_map};
ghost use Rattle.std.specs.List.{list_all, flat_map, All};
ghost use Rattle.std.specs.Bool.{Decides};
ghost use Rattle.mp_codec.specs.Writing.{
  uint_bytes,
  str_bytes,
  bin_bytes,
  pair_bytes,
};
ghost use Rattle.conda_record.specs.Writing.{
  texts_if_any,
  record_bytes,
  IsShort,
  AreShort,
  IsWritable,
  AreText,
  AreFields,
  IsReadAgain,
  can_be_said,
  can_be_said_if,
  can_all_be_said,
  are_required_short,
  are_optional_short,
  are_texts_short,
  are_lists_short,
  count_if,
  text_pair,
  number_pair,
  texts_pair,
  key_count,
  first_pairs,
  middle_pairs,
  last_pairs,
  AreRequired,
  AreFirst,
  AreMiddle,
  AreLast,
};

use crate::record::PackageRecord;
use mp_codec::{Text, cut_back, put_array, put_bin, put_map, put_str, put_uint};
use std::alloc::AllocError;

// The text, which is UTF-8.
fn shown(text: &Text) -> &str
    ensures same { result.now ≡ text.now }
    ensures text { AreText text.now }
{
    text.as_str()
}

// Appends a key and a text.
#[tactic(auto, unfolding(crate::specs::Writing::text_pair))]
fn put_text(out: &mut Vec<u8>, key: &str, text: &Text) -> Result<(), AllocError>
    requires { (IsShort key.now) × IsShort text.now }
    ensures ok { OnOk result (out.new.items ≡ out.old.items
        ++ text_pair key.now text.now) }
    ensures text { AreText text.now }
    ensures kept { OnErr result (take (length out.old.items) out.new.items ≡ out.old.items) }
{
    let value = shown(text);
    put_str(out, key)?;
    put_str(out, value)
}

// Appends a key and a number.
#[tactic(auto, unfolding(crate::specs::Writing::number_pair))]
fn put_number(out: &mut Vec<u8>, key: &str, n: u64) -> Result<(), AllocError>
    requires { IsShort key.now }
    ensures ok { OnOk result (out.new.items ≡ out.old.items
        ++ number_pair key.now n) }
    ensures fits { n < 2 ^ 64 }
    ensures kept { OnErr result (take (length out.old.items) out.new.items ≡ out.old.items) }
{
    put_str(out, key)?;
    put_uint(out, n)
}

// Appends a key and some bytes.
fn put_bytes(out: &mut Vec<u8>, key: &str, bytes: &[u8]) -> Result<(), AllocError>
    requires { (IsShort key.now) × IsShort bytes.now }
    ensures ok { OnOk result (out.new.items ≡ out.old.items
        ++ pair_bytes key.now (Some (bin_bytes bytes.now))) }
    ensures kept { OnErr result (take (length out.old.items) out.new.items ≡ out.old.items) }
{
    put_str(out, key)?;
    put_bin(out, bytes)
}

// Appends a key and a list of texts.
#[tactic(auto, unfolding(crate::specs::Writing::texts_pair))]
fn put_texts(out: &mut Vec<u8>, key: &str, texts: &[Text]) -> Result<(), AllocError>
    requires { (IsShort key.now) × AreShort texts.now }
    ensures ok { OnOk result (out.new.items ≡ out.old.items
        ++ texts_pair key.now texts.now) }
    ensures texts { OnOk result (All AreText texts.now) }
    ensures kept { OnErr result (take (length out.old.items) out.new.items ≡ out.old.items) }
{
    put_str(out, key)?;
    put_array(out, texts.len() as u32)?;
    put_elements(out, texts)
}

// Appends texts, one behind the other.
fn put_elements(out: &mut Vec<u8>, texts: &[Text]) -> Result<(), AllocError>
    requires { All IsShort texts.now }
    ensures ok { OnOk result (out.new.items ≡ out.old.items ++ flat_map str_bytes texts.now) }
    ensures texts { OnOk result (All AreText texts.now) }
    ensures kept { OnErr result (take (length out.old.items) out.new.items ≡ out.old.items) }
{
    for text in texts {
        put_str(out, shown(text))?;
    }
    Ok(())
}

// Appends a key and a text, if there is one.
#[tactic(auto, unfolding(crate::specs::Writing::text_pair))]
fn put_text_if(out: &mut Vec<u8>, key: &str, text: &Option<Text>) -> Result<(), AllocError>
    requires { (IsShort key.now) × IfSome text.now IsShort }
    ensures ok { OnOk result (out.new.items ≡ out.old.items
        ++ pair_bytes key.now (option_map str_bytes text.now)) }
    ensures text { IfSome text.now AreText }
    ensures kept { OnErr result (take (length out.old.items) out.new.items ≡ out.old.items) }
{
    match text {
        Some(text) => put_text(out, key, text),
        None => Ok(()),
    }
}

// Appends a key and a number, if there is one.
#[tactic(auto, unfolding(crate::specs::Writing::number_pair))]
fn put_number_if(out: &mut Vec<u8>, key: &str, n: Option<u64>) -> Result<(), AllocError>
    requires { IsShort key.now }
    ensures ok { OnOk result (out.new.items ≡ out.old.items
        ++ pair_bytes key.now (option_map uint_bytes n)) }
    ensures fits { IfSome n (λ n. n < 2 ^ 64) }
    ensures kept { OnErr result (take (length out.old.items) out.new.items ≡ out.old.items) }
{
    match n {
        Some(n) => put_number(out, key, n),
        None => Ok(()),
    }
}

// Appends a key and a list of texts, unless the list is empty.
#[tactic(auto, unfolding(crate::specs::Writing::texts_pair))]
fn put_texts_if_any(out: &mut Vec<u8>, key: &str, texts: &[Text]) -> Result<(), AllocError>
    requires { (IsShort key.now) × AreShort texts.now }
    ensures ok { OnOk result (out.new.items ≡ out.old.items
        ++ pair_bytes key.now (texts_if_any texts.now)) }
    ensures texts { OnOk result (All AreText texts.now) }
    ensures kept { OnErr result (take (length out.old.items) out.new.items ≡ out.old.items) }
{
    if texts.is_empty() {
        return Ok(());
    }
    put_texts(out, key, texts)
}

// Appends a key and a digest, if there is one.
fn put_digest_if<const N: usize>(
    out: &mut Vec<u8>,
    key: &str,
    digest: Option<[u8; N]>,
) -> Result<(), AllocError>
    requires { (IsShort key.now) × (N < 2 ^ 32) }
    ensures ok { OnOk result (out.new.items ≡ out.old.items
        ++ pair_bytes key.now (option_map bin_bytes digest.entry)) }
    ensures length { IfSome digest.entry (λ digest. length digest ≡ N) }
    ensures kept { OnErr result (take (length out.old.items) out.new.items ≡ out.old.items) }
{
    match digest {
        Some(digest) => put_bytes(out, key, &digest),
        None => Ok(()),
    }
}

// 1 where it holds, else 0.
fn one_if(holds: bool) -> u32
    ensures { result ≡ count_if holds }
{
    u32::from(holds)
}

// Whether a head of MessagePack can say the length of the text.
fn is_short(text: &Text) -> bool
    ensures { result ≡ can_be_said text.now }
{
    (text.as_str().len() as u64) < 0x1_0000_0000
}

// Whether heads can say the length of the list and of each of its texts.
fn are_short(texts: &[Text]) -> bool
    ensures { result ≡ can_all_be_said texts.now }
{
    (texts.len() as u64) < 0x1_0000_0000 && each_is_short(texts)
}

// Whether heads can say the lengths of the texts.
fn each_is_short(texts: &[Text]) -> bool
    ensures { result ≡ list_all can_be_said texts.now }
{
    texts.iter().all(|text| is_short(text))
}

// Whether a head can say the length of the text, if there is one.
fn is_short_if(text: &Option<Text>) -> bool
    ensures { result ≡ can_be_said_if text.now }
{
    match text {
        Some(text) => is_short(text),
        None => true,
    }
}

impl PackageRecord {
    /// Whether the record can be written: its texts and lists are shorter than 2^32, as those of each
    /// record that was read are.
    #[tactic(auto, using(crate::proofs::CountLemmas::writable_decides))]
    pub fn is_writable(&self) -> bool
        ensures { Decides result (IsWritable self.now) }
    {
        self.are_texts_short() && self.are_lists_short()
    }

    // Whether the lists can be written.
    fn are_lists_short(&self) -> bool
        ensures { result ≡ are_lists_short self.now }
    {
        are_short(&self.depends) && are_short(&self.constrains)
    }

    // Whether the texts can be written.
    fn are_texts_short(&self) -> bool
        ensures { result ≡ are_texts_short self.now }
    {
        self.are_required_short() && self.are_optional_short()
    }

    // Whether the required texts can be written.
    fn are_required_short(&self) -> bool
        ensures { result ≡ are_required_short self.now }
    {
        is_short(&self.name) && is_short(&self.version) && is_short(&self.build)
    }

    // Whether the optional texts can be written.
    fn are_optional_short(&self) -> bool
        ensures { result ≡ are_optional_short self.now }
    {
        is_short_if(&self.subdir) && is_short_if(&self.license) && is_short_if(&self.noarch)
    }

    /// Appends the record as one map, by the shortest spellings: the keys that have a value, in the
    /// order of docs/FORMATS.md, "Package records"; `build_number` and `depends` always.
    ///
    /// At want of memory the vector is as before.
    pub fn write(&self, out: &mut Vec<u8>) -> Result<(), AllocError>
        requires { IsWritable self.now }
        ensures ok { OnOk result (out.new.items ≡ out.old.items ++ record_bytes self.now) }
        // What was written is read as this record, whatever follows it.
        ensures read_again { OnOk result (IsReadAgain self.now) }
        ensures unchanged { OnErr result (out.new.items ≡ out.old.items) }
    {
        let old = out.len();
        let outcome = self.put(out);
        cut_back(out, old, outcome)
    }

    // Appends the record; at want of memory some of it may stand.
    fn put(&self, out: &mut Vec<u8>) -> Result<(), AllocError>
        requires { IsWritable self.now }
        ensures ok { OnOk result (out.new.items ≡ out.old.items ++ record_bytes self.now) }
        ensures fields { OnOk result (AreFields self.now) }
        ensures kept { OnErr result (take (length out.old.items) out.new.items ≡ out.old.items) }
    {
        put_map(out, self.key_count())?;
        self.put_first(out)?;
        self.put_middle(out)?;
        self.put_last(out)
    }

    // How many keys are written.
    #[tactic(auto, using(crate::proofs::CountLemmas::keys_counted))]
    fn key_count(&self) -> u32
        ensures { result ≡ key_count self.now }
    {
        let place = one_if(self.constrains.len() > 0) + one_if(self.subdir.is_some());
        let digests = one_if(self.md5.is_some()) + one_if(self.sha256.is_some());
        let numbers = one_if(self.size.is_some()) + one_if(self.timestamp.is_some());
        let kinds = one_if(self.license.is_some()) + one_if(self.noarch.is_some());
        5 + place + digests + numbers + kinds
    }

    // Appends the keys that are always written.
    #[tactic(auto, unfolding(crate::specs::Writing::first_pairs))]
    fn put_first(&self, out: &mut Vec<u8>) -> Result<(), AllocError>
        requires { IsWritable self.now }
        ensures ok { OnOk result (out.new.items ≡ out.old.items ++ first_pairs self.now) }
        ensures texts { OnOk result (AreRequired self.now) }
        ensures fields { OnOk result (AreFirst self.now) }
        ensures kept { OnErr result (take (length out.old.items) out.new.items ≡ out.old.items) }
    {
        put_text(out, "name", &self.name)?;
        put_text(out, "version", &self.version)?;
        put_text(out, "build", &self.build)?;
        put_number(out, "build_number", self.build_number)?;
        put_texts(out, "depends", &self.depends)
    }

    // Appends the keys from `constrains` to `sha256`.
    #[tactic(auto, unfolding(crate::specs::Writing::middle_pairs))]
    fn put_middle(&self, out: &mut Vec<u8>) -> Result<(), AllocError>
        requires { IsWritable self.now }
        ensures ok { OnOk result (out.new.items ≡ out.old.items ++ middle_pairs self.now) }
        ensures fields { OnOk result (AreMiddle self.now) }
        ensures kept { OnErr result (take (length out.old.items) out.new.items ≡ out.old.items) }
    {
        put_texts_if_any(out, "constrains", &self.constrains)?;
        put_text_if(out, "subdir", &self.subdir)?;
        put_digest_if(out, "md5", self.md5)?;
        put_digest_if(out, "sha256", self.sha256)
    }

    // Appends the keys from `size` on.
    #[tactic(auto, unfolding(crate::specs::Writing::last_pairs))]
    fn put_last(&self, out: &mut Vec<u8>) -> Result<(), AllocError>
        requires { IsWritable self.now }
        ensures ok { OnOk result (out.new.items ≡ out.old.items ++ last_pairs self.now) }
        ensures fields { OnOk result (AreLast self.now) }
        ensures kept { OnErr result (take (length out.old.items) out.new.items ≡ out.old.items) }
    {
        put_number_if(out, "size", self.size)?;
        put_number_if(out, "timestamp", self.timestamp)?;
        put_text_if(out, "license", &self.license)?;
        put_text_if(out, "noarch", &self.noarch)
    }
}
