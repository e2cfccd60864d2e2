//! Laws of the spellings, as functions without a body whose contracts the check proves.

ghost use Rattle.std.specs.Prelude.{◌≡◌, ◌<◌, ◌^◌, ◌++◌, length, List, ℕ, ◌⊎◌};
ghost use Rattle.gateway_words.specs.Places.{Position};
ghost use Rattle.mp_codec.specs.declared.fault.FormatFault.{FormatFault};
ghost use Rattle.mp_codec.specs.Value.{Value};
ghost use Rattle.mp_codec.specs.declared.head.Head.TheVariants.{Array, Map};
ghost use Rattle.mp_codec.specs.Spelling.{Spells, Lies, Breaks};
ghost use Rattle.mp_codec.specs.Writing.{
  uint_bytes,
  str_bytes,
  bin_bytes,
  array_head,
  map_head,
  uint_value,
  str_value,
  bin_value,
  StandsAs,
  HeadStandsAs,
  IsShortest,
  IsShortestHead,
};

/// No spelling is a proper prefix of another.
pub fn no_spelling_is_a_prefix()
    ensures { (v w : Value) (a b x y : List ℕ) → Spells v a → Spells w b → a ++ x ≡ b ++ y → a ≡ b }
{}

/// No bytes spell two values.
pub fn no_bytes_spell_two_values()
    ensures { (v w : Value) (bytes : List ℕ) → Spells v bytes → Spells w bytes → v ≡ w }
{}

/// At each position a value stands or breaks off, and never both.
pub fn a_value_stands_or_breaks_off()
    ensures one { (here : Position)
        → ((v : Value) × (there : Position) × Lies v here there)
        ⊎ ((f : FormatFault) × Breaks 1 here f) }
    ensures not_both { (here there : Position) (v : Value) (f : FormatFault)
        → Lies v here there → Breaks 1 here f → ⊥ }
{}

/// What is written stands as the value that it was written for, whatever follows it.
pub fn what_is_written_stands()
    ensures uint { (n : ℕ) → n < 2 ^ 64 → StandsAs (uint_value n) (uint_bytes n) }
    ensures str { (payload : List ℕ) → length payload < 2 ^ 32
        → StandsAs (str_value payload) (str_bytes payload) }
    ensures bin { (payload : List ℕ) → length payload < 2 ^ 32
        → StandsAs (bin_value payload) (bin_bytes payload) }
    ensures array { (n : ℕ) → n < 2 ^ 32 → HeadStandsAs (Array n) (array_head n) }
    ensures map { (n : ℕ) → n < 2 ^ 32 → HeadStandsAs (Map n) (map_head n) }
{}

/// What is written is the shortest of all spellings.
pub fn what_is_written_is_shortest()
    ensures uint { (n : ℕ) → IsShortest (uint_value n) (uint_bytes n) }
    ensures str { (payload : List ℕ) → IsShortest (str_value payload) (str_bytes payload) }
    ensures bin { (payload : List ℕ) → IsShortest (bin_value payload) (bin_bytes payload) }
    ensures array { (n : ℕ) → IsShortestHead (Array n) (array_head n) }
    ensures map { (n : ℕ) → IsShortestHead (Map n) (map_head n) }
{}
