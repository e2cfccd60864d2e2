//! The laws of journals. Each is a function whose contract is the law.

ghost use Rattle.std.specs.Prelude.{◌≡◌, ◌≢◌, ◌⊎◌, ◌<◌, ◌≤◌, ◌∷◌, ◌++◌, [], ℕ, Bool, List, Some, None, true, false, length, map, slice_get};
ghost use Rattle.std.specs.List.{list_all};
ghost use Rattle.shard_cache.specs.Recency.{is_listed, oldest_of};
ghost use Rattle.link_io.specs.declared.target.Target.{Target};
ghost use Rattle.flight_journal.specs.declared.entry.Entry.{Entry};
ghost use Rattle.flight_journal.specs.declared.entry.Entry.TheVariants.{Landed, Taken, Lost};
ghost use Rattle.flight_journal.specs.State.{Flight, State, nothing, gone, landed, IsFlight, WaitsIn, IsOwed, Flies, IsKept, HoldsKey, IsOpen, is_open};
ghost use Rattle.flight_journal.specs.Journal.{after, step, Allowed, Legal};
ghost use Rattle.flight_journal.specs.Count.{Among, IsOnce, names, calls_of, losses_of, asked_of, asks_from, wrecks_from, wrecks_met, is_wreck, is_wrecked_by, losses_among, begun_in, keeps_keys};
ghost use Rattle.flight_journal.specs.Others.{FliesOn, IsLostBy};
ghost use Rattle.flight_journal.specs.Worked.{two_landings, an_oversized_landing, a_joined_flight, index_at};

/// One entry more: the state behind it, and when the journal stays legal.
pub fn a_journal_grows()
    ensures state { (es : List Entry) (e : Entry) → after (es ++ e ∷ []) ≡ step (after es) e }
    ensures legal { (budget : ℕ) (es : List Entry) (e : Entry) →
        Legal budget es → Allowed budget (after es) e → Legal budget (es ++ e ∷ []) }
    ensures front { (budget : ℕ) (es : List Entry) (e : Entry) →
        Legal budget (es ++ e ∷ []) → Legal budget es × Allowed budget (after es) e }
    ensures begun { (es : List Entry) (e : Entry) →
        begun_in (es ++ e ∷ []) ≡ begun_in es ++ begun_in (e ∷ []) }
{}

/// What a journal counts of a query stays where an entry names another query, or none.
pub fn counts_of_others_stay()
    ensures calls { (q : ℕ) (es : List Entry) (e : Entry) →
        names q e ≡ false → calls_of q (es ++ e ∷ []) ≡ calls_of q es }
    ensures losses { (q : ℕ) (es : List Entry) (e : Entry) →
        names q e ≡ false → losses_of q (es ++ e ∷ []) ≡ losses_of q es }
    ensures asks { (q : ℕ) (es : List Entry) (e : Entry) →
        names q e ≡ false → asks_from q nothing (es ++ e ∷ []) ≡ asks_from q nothing es }
    ensures wrecks { (q : ℕ) (es : List Entry) (e : Entry) →
        names q e ≡ false → wrecks_from q nothing (es ++ e ∷ []) ≡ wrecks_from q nothing es }
{}

/// What an entry that names another query, or none, leaves of a query: each flight goes on for it, or
/// lands, or another query lost it; it awaits no new flight; and it stays open or closed.
pub fn flights_of_others_go_on()
    ensures flights { (budget q f : ℕ) (s : State) (e : Entry) (x : Flight) →
        Allowed budget s e → names q e ≡ false → IsFlight s f x →
        ((y : Flight) × IsFlight (step s e) f y × FliesOn q x y) ⊎ IsLostBy q f e }
    ensures fresh { (budget q f : ℕ) (s : State) (e : Entry) →
        names q e ≡ false → slice_get s.flights f ≡ None →
        ¬ WaitsIn (step s e) q f × ¬ IsOwed (step s e) q f }
    ensures live { (budget q : ℕ) (s : State) (e : Entry) →
        Allowed budget s e → names q e ≡ false → is_open (step s e) q ≡ is_open s q }
{}

/// A flight that a query loses is gone, and what is gone stays gone, with its target.
pub fn what_is_gone_stays_gone()
    ensures gone { (budget f : ℕ) (s : State) (e : Entry) (x : Flight) →
        Allowed budget s e → IsFlight s f x → x.phase ≡ gone →
        (y : Flight) × IsFlight (step s e) f y × (y.phase ≡ gone) × (y.target ≡ x.target) }
    ensures lost { (budget q f : ℕ) (s : State) (x : Flight) →
        Allowed budget s (Lost q f) → IsFlight s f x →
        (y : Flight) × IsFlight (step s (Lost q f)) f y × (y.phase ≡ gone) × (y.target ≡ x.target) }
{}

/// No two flights that fly or are kept have one key, and a kept key doesn't fly.
pub fn each_key_has_one_flight()
    ensures one { (budget f g : ℕ) (journal : List Entry) (t u : Target) →
        Legal budget journal → HoldsKey (after journal) f t → HoldsKey (after journal) g u →
        t.key ≡ u.key → f ≡ g }
    ensures kept { (budget f g : ℕ) (journal : List Entry) (t u : Target) →
        Legal budget journal → IsKept (after journal) f t → Flies (after journal) g u →
        t.key ≢ u.key }
    ensures sized { (budget f : ℕ) (journal : List Entry) →
        Legal budget journal → is_listed f (after journal).kept ≡ true →
        (size : ℕ) × (x : Flight) × IsFlight (after journal) f x × (x.phase ≡ landed (Some size)) }
{}

/// A query that awaits a flight is open, and one that did not open yet is named nowhere.
pub fn who_awaits_is_open()
    ensures waits { (budget q f : ℕ) (journal : List Entry) →
        Legal budget journal → WaitsIn (after journal) q f → IsOpen (after journal) q }
    ensures owed { (budget q f : ℕ) (journal : List Entry) →
        Legal budget journal → IsOwed (after journal) q f → IsOpen (after journal) q }
    ensures unseen { (budget q : ℕ) (journal : List Entry) →
        Legal budget journal → length (after journal).live ≤ q → calls_of q journal ≡ 0 }
{}

/// A query's asks are as many as its entries that ask, and one without losses lost no flight.
pub fn asks_are_counted()
    ensures asks { (budget q : ℕ) (journal : List Entry) →
        Legal budget journal → length (asks_from q nothing journal) ≡ asked_of q journal }
    ensures losses { (q f : ℕ) (journal : List Entry) →
        losses_of q journal ≡ 0 → ¬ Among (Lost q f) journal }
{}

/// A flight is a wreck exactly where an entry landed it without a size, and each wreck of a query was
/// brought by an entry of that query.
pub fn wrecks_are_brought()
    ensures wreck { (budget f : ℕ) (journal : List Entry) →
        Legal budget journal →
        is_wreck (slice_get (after journal).flights f) ≡ is_wrecked_by f journal }
    ensures brought { (budget q f : ℕ) (journal : List Entry) →
        Legal budget journal → Among f (wrecks_from q nothing journal) →
        Among (Landed q f None) journal
        ⊎ (Among (Taken q f) journal × ((p : ℕ) × Among (Landed p f None) journal)) }
    ensures counted { (budget q : ℕ) (journal : List Entry) →
        Legal budget journal → length (wrecks_from q nothing journal) ≡ wrecks_met q [] journal }
{}

/// Where each of some different flights was lost, as many entries lose one of them.
pub fn losses_are_counted()
    ensures { (flights : List ℕ) (journal : List Entry) →
        IsOnce flights → ((f : ℕ) → Among f flights → (p : ℕ) × Among (Lost p f) journal) →
        length flights ≤ losses_among flights journal }
{}

/// The flights of the state are those that were begun, in order; and where no entry gives up a key, no
/// two of them have one key: nothing is fetched twice.
pub fn each_key_is_fetched_once()
    ensures begun { (journal : List Entry) →
        map (λ x. x.target) (after journal).flights ≡ begun_in journal }
    ensures once { (budget : ℕ) (journal : List Entry) →
        Legal budget journal → list_all keeps_keys journal ≡ true →
        (f g : ℕ) (t u : Target) → slice_get (begun_in journal) f ≡ Some t →
        slice_get (begun_in journal) g ≡ Some u → t.key ≡ u.key → f ≡ g }
{}

/// Two worked journals, computed.
pub fn worked_journals()
    ensures over { oldest_of (after two_landings).kept ≡ Some 1 }
    ensures kept { (after two_landings).kept ≡ (1, 6) ∷ [] }
    ensures none_kept { (after (two_landings ++ an_oversized_landing)).kept ≡ [] }
    ensures asks { asks_from 1 nothing (two_landings ++ an_oversized_landing) ≡
        (index_at 2).key ∷ [] }
    ensures calls { calls_of 1 (two_landings ++ an_oversized_landing) ≡ 3 }
    ensures joined { (after a_joined_flight).kept ≡ (1, 5) ∷ (0, 4) ∷ [] }
    ensures dials { begun_in a_joined_flight ≡ index_at 0 ∷ index_at 1 ∷ [] }
    ensures live { (after a_joined_flight).live ≡ false ∷ false ∷ [] }
{}
