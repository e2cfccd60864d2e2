//! The law that carries what a pass says over the calls of others.

ghost use Rattle.std.specs.Prelude.{◌≡◌, ◌≢◌, ◌++◌, ◌∷◌, [], ℕ, List, Option, Some, None, false, length, slice_get};
ghost use Rattle.std.specs.List.{list_any};
ghost use Rattle.link_io.specs.Origin.{Origin};
ghost use Rattle.link_io.specs.Target.{IsPlain};
ghost use Rattle.link_io.specs.declared.target.Target.{Target};
ghost use Rattle.flight_journal.specs.declared.entry.Entry.{Entry};
ghost use Rattle.flight_journal.specs.declared.entry.Entry.TheVariants.{Opened, Began, Joined, Hit, Taken, Landed, Lost};
ghost use Rattle.flight_journal.specs.State.{Flies, IsKept};
ghost use Rattle.flight_journal.specs.Journal.{after, Allowed, Legal};
ghost use Rattle.flight_journal.specs.Count.{names, only_if, is_wreck};
ghost use Rattle.flight_journal.specs.Worked.{two_landings, an_oversized_landing};
ghost use Rattle.flight_rows.specs.Sight.{Sight, IsSightSound, hand_in};
ghost use Rattle.flight_rows.specs.Serves.{Writes, HandsStay, HandMoves, IsLeaving};
ghost use Rattle.flight_table.specs.Facts.{Facts, new_pass, left_pass, hit_pass, awaiting_pass, landed_pass, lost_pass, taken_pass, IsWithout};
ghost use Rattle.flight_table.specs.Knows.{Knows};
ghost use Rattle.flight_table.specs.Tells.{Tells, HoldsTheSame};
ghost use Rattle.flight_table.specs.Follows.{Follows};
ghost use Rattle.flight_table.specs.Worked.{an_owed_value, table_of, landed_three, awaits_one, took_it, forgot_it};

/// Where what a pass says is so of a legal journal, it is so of the journal with an entry more, and of
/// one with some entries more, that name another query, or none.
pub fn what_a_pass_says_stays()
    ensures one { (budget : ℕ) (journal : List Entry) (e : Entry) (p : Facts) →
        Legal budget journal → Allowed budget (after journal) e → names p.query e ≡ false →
        Knows journal p → Knows (journal ++ e ∷ []) p }
    ensures some { (budget : ℕ) (journal written : List Entry) (p : Facts) →
        Legal budget (journal ++ written) → list_any (names p.query) written ≡ false →
        Knows journal p → Knows (journal ++ written) p }
{}

/// Where what a pass says is so of a table, it is so behind a call that writes entries of other queries
/// alone and moves no parcel into its query's hand or out of it.
pub fn what_a_pass_tells_stays()
    ensures tells { (s t : Sight) (written : List Entry) (p : Facts) →
        Writes written s t → IsSightSound t → list_any (names p.query) written ≡ false →
        HoldsTheSame p.query s t → Tells s p → Tells t p }
    ensures hands_stay { (q : ℕ) (s t : Sight) → HandsStay s t → HoldsTheSame q s t }
    ensures hand_moves { (q f : ℕ) (hand : Option ℕ) (s t : Sight) →
        HandMoves f hand s t → hand_in s.hands f ≢ Some q → hand ≢ Some q → HoldsTheSame q s t }
{}

/// A query that has just opened under the next number has a pass that says so.
pub fn a_new_pass_is_told()
    ensures { (budget q base : ℕ) (origin : Origin) (journal : List Entry) →
        Legal budget journal → q ≡ length (after journal).live →
        Knows (journal ++ Opened q ∷ []) (new_pass q base origin) }
{}

/// A query that closes or is cancelled has a pass that says so, and awaits nothing any more.
pub fn a_pass_that_left_is_told()
    ensures { (budget : ℕ) (journal : List Entry) (e : Entry) (p : Facts) →
        Legal budget journal → Allowed budget (after journal) e → IsLeaving p.query e →
        Knows journal p → Knows (journal ++ e ∷ []) (left_pass p) }
{}

/// A query that takes what is kept has a pass that says so: it asked for the key of the flight.
pub fn a_pass_that_hit_is_told()
    ensures { (budget f : ℕ) (journal : List Entry) (p : Facts) (u : Target) →
        Legal budget journal → Allowed budget (after journal) (Hit p.query f) →
        IsKept (after journal) f u → Knows journal p →
        Knows (journal ++ Hit p.query f ∷ []) (hit_pass u.key p) }
{}

/// A query that begins or joins a flight for a plain target has a pass that says so: it asked for the
/// target's key, and awaits the flight.
pub fn a_pass_that_awaits_is_told()
    ensures begun { (budget f : ℕ) (journal : List Entry) (p : Facts) (u : Target) →
        Allowed budget (after journal) (Began p.query f u) → IsPlain u → Knows journal p →
        Knows (journal ++ Began p.query f u ∷ []) (awaiting_pass f u p) }
    ensures joined { (budget f : ℕ) (journal : List Entry) (p : Facts) (u : Target) →
        Allowed budget (after journal) (Joined p.query f) → Flies (after journal) f u →
        IsPlain u → Knows journal p →
        Knows (journal ++ Joined p.query f ∷ []) (awaiting_pass f u p) }
{}

/// A query that lands or loses a flight, or takes its value, has a pass that says so, and awaits the
/// rest.
pub fn a_pass_that_parts_is_told()
    ensures landed { (budget f : ℕ) (size : Option ℕ) (journal : List Entry) (p : Facts)
        (rest : List (ℕ × Target)) →
        Allowed budget (after journal) (Landed p.query f size) → IsWithout f p.awaits rest →
        Knows journal p →
        Knows (journal ++ Landed p.query f size ∷ []) (landed_pass f size rest p) }
    ensures lost { (budget f : ℕ) (journal : List Entry) (p : Facts) (rest : List (ℕ × Target)) →
        Allowed budget (after journal) (Lost p.query f) → IsWithout f p.awaits rest →
        Knows journal p → Knows (journal ++ Lost p.query f ∷ []) (lost_pass rest p) }
    ensures taken { (budget f : ℕ) (journal : List Entry) (p : Facts) (rest : List (ℕ × Target)) →
        Allowed budget (after journal) (Taken p.query f) → IsWithout f p.awaits rest →
        Knows journal p → Knows (journal ++ Taken p.query f ∷ [])
        (taken_pass (only_if (is_wreck (slice_get (after journal).flights f)) (f ∷ [])) rest p) }
{}

/// What the passes of a worked table say is so of it, and so is what a call with one makes of it; a pass
/// that forgot what it awaits is not told.
pub fn a_worked_table_is_told()
    ensures landed { Tells (table_of (two_landings ++ an_oversized_landing)) landed_three }
    ensures awaits { Tells (table_of an_owed_value) awaits_one }
    ensures took { Tells (table_of (two_landings ++ an_oversized_landing)) took_it }
    ensures follows { Follows (table_of an_owed_value)
        (table_of (two_landings ++ an_oversized_landing)) awaits_one took_it }
    ensures forgot { ¬ Tells (table_of an_owed_value) forgot_it }
{}
