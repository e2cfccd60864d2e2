//! Laws of versions and constraints, each the contract of a function that does nothing.

ghost use Rattle.std.specs.Prelude.{◌≡◌, ◌↔◌, ◌++◌, ◌∷◌, [], false, true, IsTrue, List, None, Ok, ℕ};
ghost use Rattle.std.specs.Option.{option_map};
ghost use Rattle.std.specs.Cmp.{IsTotalOrder};
ghost use Rattle.std.specs.declared.cmp.Ordering.TheVariants.{Equal};
ghost use Rattle.gateway_words.specs.Ascii.{space, underscore};
ghost use Rattle.conda_version.specs.Allowing.{allows};
ghost use Rattle.conda_version.specs.Blanks.{moved};
ghost use Rattle.conda_version.specs.Constraint.{constraint_fault, shifted};
ghost use Rattle.conda_version.specs.Order.{version_cmp, version_starts_with};
ghost use Rattle.conda_version.specs.OrderLaws.{HaveSameRuns, TiesStartAlike, cut_everywhere, put_back};
ghost use Rattle.conda_version.specs.Grammar.{ends_in_underscore, version_of};
ghost use Rattle.conda_version.specs.Runs.{IsCutInto, runs_of};
ghost use Rattle.byte_text.specs.Decimal.{decimal_from};
ghost use Rattle.conda_version.specs.Tree.{Allows, Any, HasTree, IsTreeOf, any_holds};
ghost use Rattle.conda_version.specs.Version.{Value, components, number, runs};

use crate::level::LEVELS;

/// The order of versions is total: turned round it is the reverse, it is transitive, what ties
/// compares alike, and each version ties with itself.
pub fn order_is_total()
    ensures total { IsTotalOrder version_cmp }
    ensures reflexive { (v : Value) → version_cmp v v ≡ Equal }
{}

/// Versions tie exactly where their padded lists are equal, with 0 for what is missing.
pub fn ties_are_equal_runs()
    ensures equal { (v w : Value) → version_cmp v w ≡ Equal ↔ HaveSameRuns v w }
{}

/// Versions that tie start alike.
pub fn ties_start_alike()
    ensures alike { TiesStartAlike }
{}

/// The components of a part are what stands between its `.` and `_`; a `_` that is the last byte is
/// taken off first, and then put back behind the last component.
pub fn a_last_underscore_is_put_back()
    ensures plain { (t : List ℕ) → ends_in_underscore t ≡ false → components t ≡ cut_everywhere t }
    ensures low { (t : List ℕ)
        → components (t ++ underscore ∷ []) ≡ put_back (cut_everywhere t) underscore }
{}

/// A component is cut into its maximal runs: the digits at its front, of which there may be none,
/// and then by turns pieces of other bytes and of digits. Each component has such a cut, and its
/// runs are the numbers and the words of that.
pub fn a_component_is_cut_into_maximal_runs()
    ensures cut { (component : List ℕ)
        → (digits : List ℕ) × (later : List (List ℕ)) × IsCutInto component digits later }
    ensures runs { (component digits : List ℕ) (later : List (List ℕ))
        → IsCutInto component digits later
        → runs component ≡ number (decimal_from 0 digits) ∷ runs_of false later }
{}

/// A version starts with each version that equals it, itself among them.
pub fn a_version_starts_with_its_equals()
    ensures equal { (v w : Value) → version_cmp v w ≡ Equal → version_starts_with v w ≡ true }
    ensures itself { (v : Value) → version_starts_with v v ≡ true }
{}

/// A constraint has at most 64 levels of parentheses.
pub fn levels_are_64()
    ensures { LEVELS ≡ 64 }
{}

/// A text has no fault exactly where it spells a tree of the grammar, and it allows what its tree
/// says. Of two trees that one text spells, each says what the other says.
pub fn a_constraint_says_what_its_tree_says()
    ensures tree { (constraint : List ℕ) → constraint_fault constraint ≡ None ↔ HasTree constraint }
    ensures says { (constraint version : List ℕ) (tree : Any) → IsTreeOf constraint tree
        → allows constraint version ≡ any_holds (version_of version) tree }
    ensures allows { (constraint version : List ℕ) → constraint_fault constraint ≡ None
        → IsTrue (allows constraint version) ↔ Allows constraint version }
{}

/// Texts that are equal versions are allowed by the same constraints.
pub fn equal_versions_are_allowed_alike()
    ensures alike { (constraint a b : List ℕ) (v w : Value) → version_of a ≡ Ok v
        → version_of b ≡ Ok w → version_cmp v w ≡ Equal
        → allows constraint a ≡ allows constraint b }
{}

/// A blank in front of a text moves the places of its faults by one, and changes nothing else.
pub fn a_blank_in_front_moves_places()
    ensures version { (text : List ℕ) → version_of (space ∷ text) ≡ moved (version_of text) }
    ensures fault { (text : List ℕ)
        → constraint_fault (space ∷ text) ≡ option_map (shifted 1) (constraint_fault text) }
    ensures allows { (text version : List ℕ) → allows (space ∷ text) version ≡ allows text version }
{}
