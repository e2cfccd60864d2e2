//! Laws of the indexes that are written and read, each the contract of a function with no body.

ghost use Rattle.std.specs.Prelude.{◌≡◌, ◌↔◌, true, List, ℕ, Ok, Err};
ghost use Rattle.std.specs.List.{All};
ghost use Rattle.std.specs.Str.{is_utf8};
ghost use Rattle.mp_codec.specs.declared.fault.FormatFault.{FormatFault};
ghost use Rattle.mp_codec.specs.Fault.{IsFirstFault};
ghost use Rattle.mp_codec.specs.Value.{Value};
ghost use Rattle.mp_codec.specs.Spelling.{Spells};
ghost use Rattle.mp_codec.specs.Writing.{IsShortest};
ghost use Rattle.shard_index.specs.Index.{Listed, Contents, IndexOf, IndexFault};
ghost use Rattle.shard_index.specs.Reading.{index_of};
ghost use Rattle.shard_index.specs.Writing.{index_bytes, IsWritable, IsEntry, contents_written};

/// Bytes are an index in one way at most, and then nothing is wrong with them; else one fault is
/// the first. `index_of` says which.
pub fn bytes_are_an_index_or_have_a_first_fault()
    ensures index { (bytes : List ℕ) (contents : Contents)
        → (index_of bytes ≡ Ok contents) ↔ IndexOf bytes contents }
    ensures fault { (bytes : List ℕ) (f : FormatFault)
        → (index_of bytes ≡ Err f) ↔ IsFirstFault (IndexFault bytes) f }
    ensures one { (bytes : List ℕ) (c d : Contents) → IndexOf bytes c → IndexOf bytes d → c ≡ d }
    ensures one_fault { (bytes : List ℕ) (f g : FormatFault)
        → IsFirstFault (IndexFault bytes) f → IsFirstFault (IndexFault bytes) g → f ≡ g }
    ensures clean { (bytes : List ℕ) → ((f : FormatFault) → IndexFault bytes f → ⊥)
        → (contents : Contents) × IndexOf bytes contents }
{}

/// What is written is read as the subdir and the names that it was written for; so different ones
/// have different bytes.
pub fn a_written_index_is_read()
    ensures read { (subdir : List ℕ) (listed : List Listed) → IsWritable subdir listed
        → is_utf8 subdir ≡ true → All IsEntry listed
        → IndexOf (index_bytes subdir listed) (contents_written subdir listed) }
    ensures apart { (s t : List ℕ) (xs ys : List Listed) → IsWritable s xs → is_utf8 s ≡ true
        → All IsEntry xs → IsWritable t ys → is_utf8 t ≡ true → All IsEntry ys
        → index_bytes s xs ≡ index_bytes t ys → (s ≡ t) × (xs ≡ ys) }
    // No spelling of the value that was written has fewer bytes.
    ensures shortest { (subdir : List ℕ) (listed : List Listed) → IsWritable subdir listed
        → All IsEntry listed → (v : Value) → Spells v (index_bytes subdir listed)
        → IsShortest v (index_bytes subdir listed) }
{}
