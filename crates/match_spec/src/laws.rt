//! Laws of specs, each the contract of a function that does nothing.

ghost use Rattle.std.specs.Prelude.{◌≡◌, ◌++◌, ◌∷◌, true, List, Ok, ℕ};
ghost use Rattle.gateway_words.specs.Ascii.{space};
ghost use Rattle.match_spec.specs.Blanks.{moved};
ghost use Rattle.match_spec.specs.Bracket.{Entry};
ghost use Rattle.match_spec.specs.Canonical.{canonical, has_canonical};
ghost use Rattle.match_spec.specs.Legal.{IsSpec};
ghost use Rattle.match_spec.specs.Parts.{Meaning, Parts, no_parts};
ghost use Rattle.match_spec.specs.Reading.{Read, spec_of, with_entries};

/// Each spec that a text spells has parts of their forms.
pub fn what_is_read_is_a_spec()
    ensures legal { (text : List ℕ) (spec : Meaning)
        → ◌≡◌ {A = Read Meaning} (spec_of text) (Ok spec) → IsSpec spec }
{}

/// What is spelled in canonical form, the name and each part in quotes in a bracket, is read as it,
/// where no value has a double quote.
pub fn a_canonical_spec_is_read()
    ensures read { (spec : Meaning) → IsSpec spec → has_canonical spec ≡ true
        → ◌≡◌ {A = Read Meaning} (spec_of (canonical spec)) (Ok spec) }
{}

/// A blank in front of a spec moves the places of its faults by one, and changes nothing else.
pub fn a_blank_in_front_of_a_spec_moves_places()
    ensures spec { (text : List ℕ) → spec_of (space ∷ text) ≡ moved (spec_of text) }
{}

/// Two parts of a bracket that stand side by side may change places, where none of the bracket has
/// a fault.
pub fn parts_of_a_bracket_may_change_places()
    ensures swapped { (before after : List Entry) (a b : Entry) (parts : Parts)
        → ◌≡◌ {A = Read Parts} (with_entries (before ++ (a ∷ b ∷ after)) no_parts) (Ok parts)
        → ◌≡◌ {A = Read Parts} (with_entries (before ++ (b ∷ a ∷ after)) no_parts) (Ok parts) }
{}
