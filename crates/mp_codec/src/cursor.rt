//! A cursor over bytes: heads, payloads, and whole values that are skipped.

ghost use Rattle.std.specs.Prelude.{◌≡◌, ◌+◌, ◌<◌, ◌^◌, ◌==◌, ◌≤◌, List, ℕ, length, Ok, Some, IfSome, IsOk, IfOk, IfErr, OnOk, OnErr, IsErrOf};
ghost use Rattle.gateway_words.specs.Places.{Position, Between, start_of, behind};
ghost use Rattle.mp_codec.specs.declared.head.Head.{Head};
ghost use Rattle.mp_codec.specs.Format.{head_at, node_size};
ghost use Rattle.mp_codec.specs.declared.fault.FormatFault.{FormatFault};
ghost use Rattle.mp_codec.specs.Value.{Value};
ghost use Rattle.mp_codec.specs.Maps.{IsStr, number_from};
ghost use Rattle.mp_codec.specs.Span.{IsIn};
ghost use Rattle.mp_codec.specs.Spelling.{HeadLies, Lies, Breaks, short};
ghost use Rattle.mp_codec.specs.Reading.{Steps, Passes, NodePasses, PassesLeaf, head_fault, head_from, bytes_from, node_from, values_from};

use crate::fault::{FaultKind, FormatFault};
use crate::head::{Head, head_in, short_parts_in, short_str_in, unsigned_in};
use std::marker::Model;

/// A place in some bytes. Contracts see the place and the bytes from there on.
#[derive(Drop)]
pub struct Cursor<'a> {
    bytes: &'a [u8],
    at: usize,
}

impl<'a> Model for Cursor<'a> {
    ghost use Rattle.std.specs.Prelude.{◌≤◌, length, drop};
    ghost use Rattle.gateway_words.specs.Places.{Position};

    ghost Value = { Position };

    ghost view = { λ cursor. record { at = cursor.at; left = drop cursor.at cursor.bytes.now } };

    ghost invariant = { λ cursor. cursor.at ≤ length cursor.bytes.now };
}

impl<'a> Cursor<'a> {
    /// A cursor at the first of some bytes.
    pub fn new(bytes: &'a [u8]) -> Cursor<'a>
        ensures { result ≡ start_of bytes.now }
    {
        Cursor { bytes, at: 0 }
    }

    /// A second cursor at the same place.
    #[inline(always)]
    pub fn copy(&self) -> Cursor<'a>
        ensures same { result ≡ self.now }
        ensures small { self.now.at + length self.now.left < 2 ^ 64 }
    {
        Cursor {
            bytes: self.bytes,
            at: self.at,
        }
    }

    /// The bytes that the cursor goes over, from their start.
    pub fn bytes(&self) -> &'a [u8]
        ensures { IsIn result.now self.now }
    {
        self.bytes
    }

    // The bytes from the cursor on.
    #[inline(always)]
    fn rest(&self) -> &'a [u8]
        ensures { result.now ≡ self.now.left }
    {
        &self.bytes[self.at..]
    }

    /// The place, in bytes from 0.
    pub fn at(&self) -> usize
        ensures { result ≡ self.now.at }
    {
        self.at
    }

    /// Whether no bytes are left.
    pub fn is_end(&self) -> bool
        ensures { result ≡ (length self.now.left == 0) }
    {
        self.at == self.bytes.len()
    }

    /// The head of the next value: its family, with its number, its length or the number of its
    /// parts. The bytes of a float are passed over; the payload of a str, bin or ext is left to
    /// `take`.
    ///
    /// `Short` where the bytes end within the head, at the place where they end.
    /// `Reserved` where the first byte is 0xc1, at its place. After a fault the cursor has not
    /// moved.
    /// (MessagePack specification, "Formats".)
    pub fn head(&mut self) -> Result<Head, FormatFault>
        // What is taken spells the head.
        ensures found { IfOk result (λ head. HeadLies head self.old self.new) }
        // Where a head stands it is taken.
        ensures only { (h : Head) (there : Position) → HeadLies h self.old there
            → (result ≡ Ok h) × (self.new ≡ there) }
        // A fault is where every value that begins here breaks off.
        ensures fault { IfErr result (λ f. Breaks 1 self.old f) }
        ensures unchanged { OnErr result (self.new ≡ self.old) }
        // It stays in the bytes that it goes over.
        ensures within { (bytes : List ℕ) → IsIn bytes self.old → IsIn bytes self.new }

        ensures exact { Steps (λ head. head) self.old self.new result (head_from self.old) }
    {
        self.next_head()
    }

    /// The next bytes, as many as are asked for: the payload of a str, bin or ext whose head was
    /// taken.
    ///
    /// `Short` where fewer are left, at the place where they end. After a fault the cursor has not
    /// moved.
    pub fn take(&mut self, len: u32) -> Result<&'a [u8], FormatFault>
        // What is taken are the next bytes, so many.
        ensures found { IfOk result (λ taken. (length taken.now ≡ len)
            × Between taken.now self.old self.new) }
        // A fault is that fewer are left.
        ensures fault { IfErr result (λ f. (length self.old.left < len) × (f ≡ short self.old)) }
        ensures unchanged { OnErr result (self.new ≡ self.old) }
        // It stays in the bytes that it goes over.
        ensures within { (bytes : List ℕ) → IsIn bytes self.old → IsIn bytes self.new }

        ensures exact { Steps (λ taken. taken.now) self.old self.new result
            (bytes_from len self.old) }
    {
        self.next_bytes(len as usize)
    }

    /// Passes over one whole value of any depth, whatever it is.
    ///
    /// `Short` where the bytes end within it, at the place where they end. `Reserved` where 0xc1
    /// stands in its place or in that of a value in it, at that byte. After a fault the cursor has
    /// not moved. It counts the values that are still to come, so that depth costs no memory.
    pub fn skip(&mut self) -> Result<(), FormatFault>
        // What is taken spells one value.
        ensures found { OnOk result ((v : Value) × Lies v self.old self.new) }
        // Where a value stands it is taken.
        ensures only { (v : Value) (there : Position) → Lies v self.old there
            → IsOk result × (self.new ≡ there) }
        // A fault is the place where the value breaks off.
        ensures fault { IfErr result (λ f. Breaks 1 self.old f) }
        // Where it breaks off, that is the fault.
        ensures broken { (f : FormatFault) → Breaks 1 self.old f → IsErrOf result f }
        ensures unchanged { OnErr result (self.new ≡ self.old) }
        // It stays in the bytes that it goes over.
        ensures within { (bytes : List ℕ) → IsIn bytes self.old → IsIn bytes self.new }

        ensures exact { Passes self.old self.new result (values_from 1 self.old) }
    {
        match self.behind_value() {
            Ok(behind) => {
                *self = behind;
                Ok(())
            }
            Err(fault) => Err(fault),
        }
    }

    // The bytes of a str that stands here whole behind a head of one or two bytes, and how many bytes
    // the value takes.
    #[inline(always)]
    pub(crate) fn short_str(&self) -> Option<(&'a [u8], usize)>
        ensures exact { IfSome result (λ s. IsStr s.0.now self.now (behind s.1 self.now)) }
        ensures within { IfSome result (λ s. s.1 ≤ length self.now.left) }
    {
        let rest = self.rest();
        let (len, head) = short_str_in(rest)?;
        let end = usize::from(head) + usize::from(len);
        Some((rest.get(usize::from(head)..end)?, end))
    }

    // The number without a sign that stands here, and how many bytes it takes.
    #[inline(always)]
    pub(crate) fn unsigned(&self) -> Option<(u64, usize)>
        ensures exact { IfSome result
            (λ n. number_from self.now ≡ Ok (Some n.0, behind n.1 self.now)) }
        ensures within { IfSome result (λ n. n.1 ≤ length self.now.left) }
    {
        let (number, len) = unsigned_in(self.rest())?;
        Some((number, len))
    }

    // Passes over so many bytes.
    #[inline(always)]
    pub(crate) fn pass(&mut self, len: usize)
        requires { len ≤ length self.old.left }
        ensures { self.new ≡ behind len self.old }
    {
        self.at += len;
    }

    // The cursor behind the next value, found by counting the values that are still owed. Each of
    // them takes a byte, so a count that stands still at its type's end is as good as the true one.
    // No call that isn't inlined has the address of `ahead`, so that its place stays in a register.
    fn behind_value(&self) -> Result<Cursor<'a>, FormatFault>
        ensures { result ≡ values_from 1 self.now }
    {
        let mut ahead = self.copy();
        let mut owed: u64 = 1;
        while owed > 0 {
            if ahead.pass_common_leaf() {
                owed -= 1;
                continue;
            }
            let mut behind = ahead.copy();
            match behind.next_node() {
                Ok(parts) => owed = (owed - 1).saturating_add(parts),
                Err(fault) => return Err(fault),
            }
            ahead = behind;
        }
        Ok(ahead)
    }

    // Passes over a value without values in it, where its head is of a form that most have: that of
    // a short text, of a digest, or of a number without a sign. Says whether it did. Each form is
    // passed over by code of its own.
    #[inline(always)]
    #[tactic(auto, unfolding(crate::specs::Format::form, crate::specs::Format::head_at))]
    fn pass_common_leaf(&mut self) -> bool
        ensures { PassesLeaf result self.old self.new (node_from self.old) }
    {
        let Some((first, behind)) = self.rest().split_first() else {
            return false;
        };
        match *first {
            0xa0..=0xbf => self.pass_leaf(1 + usize::from(*first - 0xa0)),
            0xc4 | 0xd9 => match behind {
                [len, ..] => self.pass_leaf(2 + usize::from(*len)),
                [] => false,
            },
            0xce => self.pass_leaf(5),
            0xcf => self.pass_leaf(9),
            0x00..=0x7f => self.pass_leaf(1),
            _ => false,
        }
    }

    // Passes over a value without values in it that claims so many bytes, where they are there, and
    // says whether it did.
    #[inline(always)]
    #[tactic(auto, using(crate::proofs::StrLemmas::sized_node))]
    fn pass_leaf(&mut self, len: usize) -> bool
        requires { len ≤ length self.old.left → node_size (head_at self.old.left) ≡ Some (len, 0) }
        ensures { PassesLeaf result self.old self.new (node_from self.old) }
    {
        if self.rest().len() < len {
            return false;
        }
        self.pass(len);
        true
    }

    // Passes over the head and the payload of the next value, and says how many values are in it.
    #[inline(always)]
    #[tactic(auto, using(crate::proofs::StrLemmas::sized_node))]
    fn next_node(&mut self) -> Result<u64, FormatFault>
        ensures { NodePasses result self.new (node_from self.old) }
    {
        match short_parts_in(self.rest()) {
            Some(parts) => {
                self.pass(1);
                Ok(parts)
            }
            None => self.next_other_node(),
        }
    }

    // The same of any value.
    #[tactic(auto, unfolding(crate::specs::Reading::node_from))]
    fn next_other_node(&mut self) -> Result<u64, FormatFault>
        ensures { NodePasses result self.new (node_from self.old) }
    {
        let head = self.next_head()?;
        let _payload = self.next_bytes(head.payload_len() as usize)?;
        Ok(head.part_count())
    }

    // The head of the next value.
    #[inline(always)]
    #[tactic(auto, unfolding(crate::specs::Reading::head_from))]
    fn next_head(&mut self) -> Result<Head, FormatFault>
        ensures { Steps (λ head. head) self.old self.new result (head_from self.old) }
    {
        match head_in(self.rest()) {
            Ok((head, len)) => {
                self.at += len;
                Ok(head)
            }
            Err(kind) => Err(self.head_fault(kind)),
        }
    }

    // So many bytes.
    #[inline(always)]
    #[tactic(auto, unfolding(crate::specs::Reading::bytes_from))]
    fn next_bytes(&mut self, len: usize) -> Result<&'a [u8], FormatFault>
        ensures { Steps (λ taken. taken.now) self.old self.new result (bytes_from len self.old) }
    {
        match self.rest().get(..len) {
            Some(taken) => {
                self.at += len;
                Ok(taken)
            }
            None => Err(self.short()),
        }
    }

    // The fault of a head that begins here.
    #[inline(always)]
    fn head_fault(&self, kind: FaultKind) -> FormatFault
        ensures { result ≡ head_fault kind self.now }
    {
        match kind {
            FaultKind::Short => self.short(),
            FaultKind::Reserved
            | FaultKind::NotText
            | FaultKind::Wrong
            | FaultKind::Missing
            | FaultKind::Repeated
            | FaultKind::Trailing
            | FaultKind::Version => FormatFault::new(self.at, kind),
        }
    }

    // The fault that the bytes end too early.
    #[inline(always)]
    fn short(&self) -> FormatFault
        ensures { result ≡ short self.now }
    {
        FormatFault::new(self.bytes.len(), FaultKind::Short)
    }
}
