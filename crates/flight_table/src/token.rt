//! Passes and doors: the tokens of a table.

ghost use Rattle.std.specs.Prelude.{◌≡◌};

use pass_book::{Line, Naming, NewLine, Slip};
use std::marker::{Brand, Model, PhantomData};

/// What a pass or a door says, as contracts see it. No value of it is made.
pub struct Saying {
    of: PhantomData<()>,
}

impl Model for Saying {
    ghost use Rattle.std.specs.Prelude.{[]};
    ghost use Rattle.flight_table.specs.Lines.{Said, of_door, plain_origin};
    ghost use Rattle.flight_table.specs.Doors.{first_door};

    ghost Value = { Said };

    ghost view = { λ _. of_door (first_door 0 [] plain_origin) };
}

impl Line for Saying {
    ghost use Rattle.std.specs.Prelude.{[]};
    ghost use Rattle.flight_table.specs.Lines.{of_door, plain_origin};
    ghost use Rattle.flight_table.specs.Doors.{first_door};

    ghost blank = { of_door (first_door 0 [] plain_origin) };
}

impl NewLine<Saying> for Brand {
    ghost use Rattle.std.specs.Prelude.{[]};
    ghost use Rattle.flight_table.specs.Lines.{of_door, plain_origin};
    ghost use Rattle.flight_table.specs.Doors.{first_door};

    ghost line = { of_door (first_door 0 [] plain_origin) };
}

// What a pass says, with the numbers of it that the code reads.
#[derive(Drop)]
pub(crate) struct Told<N: Naming> {
    pub(crate) slip: Slip<N, Saying>,
    pub(crate) query: u64,
    pub(crate) calls: u64,
    pub(crate) live: bool,
}

impl<N: Naming> Model for Told<N> {
    ghost use Rattle.std.specs.Prelude.{◌≡◌};
    ghost use Rattle.flight_table.specs.Facts.{Facts};
    ghost use Rattle.flight_table.specs.Lines.{of_pass, pass_in};

    ghost Value = { Facts };

    ghost view = { λ p. pass_in p.slip.1 };

    ghost invariant = { λ p. (p.slip.1 ≡ of_pass (pass_in p.slip.1)) × (p.query ≡ (pass_in p.slip.1).query) × (p.calls ≡ (pass_in p.slip.1).calls) × (p.live ≡ (pass_in p.slip.1).live) };
}

impl<N: Naming> Told<N> {
    // The number of the query.
    pub(crate) fn query(&self) -> u64
        ensures { result ≡ self.now.query }
    {
        self.query
    }

    // Whether the query is open.
    pub(crate) fn is_live(&self) -> bool
        ensures { result ≡ self.now.live }
    {
        self.live
    }

    // How many entries name the query.
    pub(crate) fn calls(&self) -> u64
        ensures { result ≡ self.now.calls }
    {
        self.calls
    }
}

/// A query's token of its table. Contracts see what it says of the query (`specs/Facts`).
///
/// A pass that is dropped leaves its query open for good.
#[derive(Drop)]
pub struct Pass<N: Naming> {
    pub(crate) told: Told<N>,
    // The flights that the query began or joined, ascending.
    pub(crate) entered: Vec<u64>,
}

impl<N: Naming> Model for Pass<N> {
    ghost use Rattle.std.specs.Prelude.{◌≡◌, ℕ, true};
    ghost use Rattle.std.specs.List.Sorted.{IsStrictlyIncreasing};
    ghost use Rattle.link_io.specs.declared.target.Target.{Target};
    ghost use Rattle.flight_journal.specs.State.{is_one_of};
    ghost use Rattle.flight_journal.specs.Count.{Among};
    ghost use Rattle.flight_table.specs.Facts.{Facts};

    ghost Value = { Facts };

    ghost view = { λ p. p.told };

    ghost invariant = { λ p. IsStrictlyIncreasing p.entered.items × ((f : ℕ) (t : Target) → Among (f, t) p.told.awaits → is_one_of f p.entered.items ≡ true) };
}

impl<N: Naming> Pass<N> {
    /// The number of the query, from 0 on.
    pub fn query(&self) -> u64
        ensures { result ≡ self.now.query }
    {
        self.told.query()
    }

    /// Whether the query is open: it has not closed yet.
    pub fn is_live(&self) -> bool
        ensures { result ≡ self.now.live }
    {
        self.told.is_live()
    }

    /// How many entries of the table's journal name the query.
    pub fn calls(&self) -> u64
        ensures { result ≡ self.now.calls }
    {
        self.told.calls()
    }
}

/// A share of the right to open queries at a table. Contracts see what it says (`specs/Doors`).
///
/// All doors of a table together have the weight 2^32. A door that is dropped takes its share along.
#[derive(Drop)]
pub struct Door<N: Naming> {
    pub(crate) slip: Slip<N, Saying>,
}

impl<N: Naming> Model for Door<N> {
    ghost use Rattle.std.specs.Prelude.{◌≡◌};
    ghost use Rattle.flight_table.specs.Doors.{Gate};
    ghost use Rattle.flight_table.specs.Lines.{of_door, door_in};

    ghost Value = { Gate };

    ghost view = { λ d. door_in d.slip.1 };

    ghost invariant = { λ d. d.slip.1 ≡ of_door (door_in d.slip.1) };
}
