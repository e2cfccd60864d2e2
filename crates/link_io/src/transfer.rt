//! Whole inputs and whole outputs: the loops over any source and any sink.
ghost use Rattle.std.specs.Prelude.{◌≡◌, ◌<◌, ◌≤◌, ◌+◌, [], length, IfOk, OnOk, OnErr, IfSome, IsErrOf, vec_len};
ghost use Rattle.std.specs.Io.KnownBytes.{append_known, IsAtEnd};
ghost use Rattle.gateway_words.specs.Causes.{Rose, HasCause};
ghost use Rattle.link_io.specs.Transfer.{LosesAtMost, AppendsPart};

use crate::{Failed, Sink, Source};
use std::alloc::{AllocError, Global};

/// The most bytes that one read is asked for.
const PIECE: usize = 1 << 16;

/// Why a source wasn't read to its end.
#[derive(Clone, Copy, Debug, PartialEq, Eq)]
pub enum ReadRefusal {
    /// A read failed.
    Failed,
    /// There are more bytes than the limit.
    TooMuch,
    /// Memory ran out.
    Memory,
}

impl From<Failed> for ReadRefusal {
    ghost use Rattle.std.specs.Prelude.{◌≡◌};
    ghost use Rattle.link_io.specs.declared.transfer.ReadRefusal.TheVariants as refusal;

    ghost from_gives = { λ _ e. e ≡ refusal.Failed };

    fn from(_: Failed) -> Self {
        ReadRefusal::Failed
    }
}

impl From<AllocError> for ReadRefusal {
    ghost use Rattle.std.specs.Prelude.{◌≡◌};
    ghost use Rattle.link_io.specs.declared.transfer.ReadRefusal.TheVariants as refusal;

    ghost from_gives = { λ _ e. e ≡ refusal.Memory };

    fn from(_: AllocError) -> Self {
        ReadRefusal::Memory
    }
}

/// All the bytes that a source has left, where there are at most `limit` of them.
///
/// `Failed` where a read failed, `TooMuch` where byte `limit + 1` was read, `Memory` where memory
/// ran out. No byte behind byte `limit + 1` is asked for. After a refusal what was read is lost.
pub fn read_to_end<I: Source>(
    alloc: Global,
    source: &mut I,
    limit: usize,
) -> Result<Vec<u8>, ReadRefusal>
    ensures ok { IfOk result (λ bytes. IfSome (I.left source.old) (λ left. bytes.items ≡ left)) }
    ensures end { OnOk result (IsAtEnd (I.left source.new)) }
    ensures within { IfOk result (λ bytes. vec_len bytes ≤ limit) }

    ensures too_much { IsErrOf result ReadRefusal.TooMuch
        → IfSome (I.left source.old) (λ left. limit < length left) }
    ensures stops { LosesAtMost (limit + 1) (I.left source.old) (I.left source.new) }

    ensures later { I.faults source.old ≤ I.faults source.new }
    ensures cause { IsErrOf result ReadRefusal.Failed
        → Rose (I.faults source.old) (I.faults source.new) }
{
    let mut piece = zeros(alloc, PIECE)?;
    let mut bytes = Vec::new(alloc);
    loop {
        let free = limit - bytes.len();
        let most = free.min(PIECE - 1) + 1;
        let part = &mut piece[..most];
        let count = source.read(part)?;
        if count == 0 {
            return Ok(bytes);
        }
        if count > free {
            return Err(ReadRefusal::TooMuch);
        }
        bytes.extend_from_slice(&part[..count])?;
    }
}

// A buffer for reads; what stands in it doesn't matter.
fn zeros(alloc: Global, size: usize) -> Result<Vec<u8>, AllocError>
    ensures { IfOk result (λ zeros. vec_len zeros ≡ size) }
{
    vec![in alloc; 0; size]
}

/// Writes all the bytes, in as many writes as the sink asks for; no byte, no write.
///
/// `Failed` where a write failed: the sink has taken a part of the bytes, and not all of them.
pub fn write_all<O: Sink>(sink: &mut O, bytes: &[u8]) -> Result<(), Failed>
    ensures ok { OnOk result (O.written sink.new ≡ append_known (O.written sink.old) bytes.now) }
    ensures err { OnErr result (AppendsPart (O.written sink.old) (O.written sink.new) bytes.now) }
    ensures empty { bytes.now ≡ [] → sink.new ≡ sink.old }

    ensures cause { HasCause (O.faults sink.old) (O.faults sink.new) result }
{
    let mut at = 0;
    while at < bytes.len() {
        at += sink.write(&bytes[at..])?;
    }
    Ok(())
}
