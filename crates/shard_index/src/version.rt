//! Reading the version of an index.

ghost use Rattle.std.specs.Prelude.{◌≡◌};
ghost use Rattle.mp_codec.specs.Reading.{Advances};
ghost use Rattle.shard_index.specs.Version.{version_from};

use mp_codec::{Cursor, FaultKind, FormatFault, Head};

// Takes the version that stands at the cursor, which has to be 1.
#[tactic(auto, unfolding(crate::specs::Version::version_from))]
pub(crate) fn version(cur: &mut Cursor<'_>) -> Result<u64, FormatFault>
    ensures { Advances (λ number. number) cur.new result (version_from cur.old) }
{
    let at = cur.at();
    let number = match cur.head()? {
        Head::Int(number) => u64::try_from(number).ok(),
        Head::Nil | Head::Bool(_) | Head::Float | Head::Str(_) | Head::Bin(_) => None,
        Head::Array(_) | Head::Map(_) | Head::Ext(_) => None,
    };
    match number {
        Some(1) => Ok(1),
        Some(_) => Err(FormatFault {
            at: at as u64,
            kind: FaultKind::Version,
        }),
        None => Err(FormatFault {
            at: at as u64,
            kind: FaultKind::Wrong,
        }),
    }
}
