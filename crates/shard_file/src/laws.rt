//! Laws of shards, each the contract of a function with no body.

ghost use Rattle.std.specs.Prelude.{◌≡◌, ◌↔◌, ℕ, List, Ok, Err};
ghost use Rattle.std.specs.List.{All};
ghost use Rattle.mp_codec.specs.Value.{Value};
ghost use Rattle.mp_codec.specs.Spelling.{Spells};
ghost use Rattle.mp_codec.specs.Writing.{IsShortest};
ghost use Rattle.mp_codec.specs.declared.fault.FormatFault.{FormatFault};
ghost use Rattle.mp_codec.specs.Fault.{IsFirstFault};
ghost use Rattle.shard_file.specs.Rows.{Row, ShardOf, ShardFault};
ghost use Rattle.shard_file.specs.Reading.{shard_of};
ghost use Rattle.shard_file.specs.Writing.{shard_bytes, AreWritable, IsRow};

/// What is written is read as the rows that it was written for, where nothing follows it; so
/// different rows have different bytes.
pub fn a_written_shard_is_read()
    ensures read { (rows : List Row) → AreWritable rows → All IsRow rows
        → ShardOf (shard_bytes rows) rows }
    ensures apart { (rows others : List Row) → AreWritable rows → All IsRow rows
        → AreWritable others → All IsRow others → shard_bytes rows ≡ shard_bytes others
        → rows ≡ others }
    // No spelling of the value that was written has fewer bytes.
    ensures shortest { (rows : List Row) → AreWritable rows → All IsRow rows → (v : Value)
        → Spells v (shard_bytes rows) → IsShortest v (shard_bytes rows) }
{}

/// Bytes are a shard in one way at most, and then nothing is wrong with them; else one fault is
/// the first. `shard_of` says which.
pub fn bytes_are_a_shard_or_have_a_first_fault()
    ensures shard { (bytes : List ℕ) (rows : List Row)
        → (shard_of bytes ≡ Ok rows) ↔ ShardOf bytes rows }
    ensures fault { (bytes : List ℕ) (f : FormatFault)
        → (shard_of bytes ≡ Err f) ↔ IsFirstFault (ShardFault bytes) f }
    ensures one { (bytes : List ℕ) (rows others : List Row)
        → ShardOf bytes rows → ShardOf bytes others → rows ≡ others }
    ensures one_fault { (bytes : List ℕ) (f g : FormatFault)
        → IsFirstFault (ShardFault bytes) f → IsFirstFault (ShardFault bytes) g → f ≡ g }
    ensures clean { (bytes : List ℕ) → ((f : FormatFault) → ShardFault bytes f → ⊥)
        → (rows : List Row) × ShardOf bytes rows }
{}
