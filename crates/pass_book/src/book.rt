//! The book, and its calls.

ghost use Rattle.std.specs.Prelude.{◌≡◌, [], ◌∷◌, ◌++◌, length, slice_set, Some, None};
ghost use Rattle.pass_book.specs.Lines.{HasLine};

use crate::naming::{Line, Naming, NewLine};
use crate::rule::{Changes, Issues, Looks, Moves, Place, Removes, Seats};
use crate::slip::Slip;
use crate::unnamed::Unnamed;
use atomic_table::Badge;
use std::marker::{Model, PhantomData};
use std::mem;

/// Lines by number. Contracts see it as the list of them, with None where a line was taken back.
#[derive(Drop)]
pub struct Book<N: Naming, T: Line> {
    seats: Seats<T>,
    seat: Place<T>,
    of: PhantomData<N>,
}

impl<N: Naming, T: Line> Model for Book<N, T> {
    ghost use Rattle.std.specs.Prelude.{◌≡◌, List, [], Option, None};

    ghost Value = { List (Option T) };

    ghost use Rattle.pass_book.specs.View.{lines_of, of_book};

    ghost view = { λ b. lines_of b.seat.me.0 };

    ghost invariant = { λ b. (b.seats.shared.table_id ≡ N.table) × (b.seat.table_id ≡ N.table) × (b.seats.shared.table_id.words ≡ 1) × (b.seat.me ≡ (of_book (lines_of b.seat.me.0) None, [])) };
}

impl<N: Naming, T: Line> Book<N, T> {
    /// The book of this name, without lines. It takes no memory.
    pub fn open(unnamed: Unnamed<T>) -> Book<N, T>
        requires { unnamed ≡ N.table }
        ensures { result ≡ [] }
    {
        let Unnamed { seats, seat } = unnamed;
        Book {
            seats,
            seat,
            of: PhantomData,
        }
    }

    /// A slip with the line of `W`, under a number that was not used before.
    pub fn issue<W: NewLine<T>>(&mut self) -> Slip<N, T>
        ensures lines { self.new ≡ self.old ++ Some W.line ∷ [] }
        ensures slip { result ≡ (length self.old, W.line) }
    {
        let seats = &self.seats;
        let shared = &seats.shared;
        shared.load::<Issues<W>>(&mut self.seat, 0);
        let seat = shared.split_seat::<Moves>(&mut self.seat);
        Slip {
            badge: seat.into_badge(),
            of: PhantomData,
        }
    }

    /// Changes nothing, and tells that the slip's line is the book's line under its number.
    pub fn agree(&mut self, slip: &mut Slip<N, T>)
        ensures lines { self.new ≡ self.old }
        ensures slip { slip.new ≡ slip.old }
        ensures agrees { HasLine self.old slip.old.0 slip.old.1 }
    {
        let badge = mem::replace(&mut slip.badge, Badge::blank());
        let seats = &self.seats;
        let shared = &seats.shared;
        shared.join_seat::<Moves>(&mut self.seat, badge.into_seat());
        shared.load::<Looks>(&mut self.seat, 0);
        slip.badge = shared.split_seat::<Moves>(&mut self.seat).into_badge();
    }

    /// Gives the slip, and the book under its number, the line of `W`.
    pub fn set<W: NewLine<T>>(&mut self, slip: &mut Slip<N, T>)
        ensures lines { self.new ≡ slice_set self.old slip.old.0 (Some W.line) }
        ensures slip { slip.new ≡ (slip.old.0, W.line) }
        ensures agrees { HasLine self.old slip.old.0 slip.old.1 }
    {
        let badge = mem::replace(&mut slip.badge, Badge::blank());
        let seats = &self.seats;
        let shared = &seats.shared;
        shared.join_seat::<Moves>(&mut self.seat, badge.into_seat());
        shared.load::<Changes<W>>(&mut self.seat, 0);
        slip.badge = shared.split_seat::<Moves>(&mut self.seat).into_badge();
    }

    /// Takes the slip's line out of the book. All other lines stay, and its number is not used again.
    pub fn take_back(&mut self, slip: Slip<N, T>)
        ensures lines { self.new ≡ slice_set self.old slip.0 None }
        ensures agrees { HasLine self.old slip.0 slip.1 }
    {
        let Slip { badge, of: _ } = slip;
        let seats = &self.seats;
        let shared = &seats.shared;
        shared.join_seat::<Moves>(&mut self.seat, badge.into_seat());
        shared.load::<Removes>(&mut self.seat, 0);
    }
}
