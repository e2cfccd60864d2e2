//! The rule over the seats of a book and its slips, and the kinds of step that keep it.

use crate::naming::NewLine;
use atomic_table::{Join, Play, Seat, Split, Table, TableRule};
use std::alloc::Global;
use std::marker::{Model, PhantomData};

/// What a seat knows. No value of it is made.
pub(crate) struct SeatView<T> {
    of: PhantomData<T>,
}

impl<T> Model for SeatView<T> {
    ghost use Rattle.pass_book.specs.View.{View, spent, view_code};

    ghost Value = { View T };

    ghost coded = { view_code T.code };

    ghost view = { λ _. spent };
}

/// The rule: each slip's line is the book's line under its number.
pub(crate) struct Agreement;

impl<T> TableRule<(), SeatView<T>, ()> for Agreement {
    ghost use Rattle.pass_book.specs.View.{Kept, opened};

    ghost holds = { λ _ s. Kept s.views };

    ghost first = { λ _. opened };
}

/// The table of a book: one word, whose number nobody reads.
pub(crate) type Seats<T> = Table<(), SeatView<T>, (), Agreement, Global>;

/// The seat of a book or of a slip.
pub(crate) type Place<T> = Seat<(), SeatView<T>>;

/// Adds a line, with its slip taken in.
pub(crate) struct Issues<W>(PhantomData<W>);

impl<T, W: NewLine<T>> Play<(), SeatView<T>> for Issues<W> {
    ghost use Rattle.std.specs.Prelude.{◌≡◌};
    ghost use Rattle.pass_book.specs.View.{issued};

    ghost then = { λ _ before _ after. after ≡ (issued before.0 W.line, before.1) };
}

/// Changes the line of the slip that is taken in.
pub(crate) struct Changes<W>(PhantomData<W>);

impl<T, W: NewLine<T>> Play<(), SeatView<T>> for Changes<W> {
    ghost use Rattle.std.specs.Prelude.{◌≡◌};
    ghost use Rattle.pass_book.specs.View.{changed, HeldAgrees};

    ghost then = { λ _ before _ after.
        (after ≡ (changed before.0 W.line, before.1)) × HeldAgrees before.0 };
}

/// Takes back the line of the slip that is taken in, and the slip with it.
pub(crate) struct Removes;

impl<T> Play<(), SeatView<T>> for Removes {
    ghost use Rattle.std.specs.Prelude.{◌≡◌};
    ghost use Rattle.pass_book.specs.View.{removed, HeldAgrees};

    ghost then = { λ _ before _ after.
        (after ≡ (removed before.0, before.1)) × HeldAgrees before.0 };
}

/// Changes nothing, and tells that the slip that is taken in has the book's line.
pub(crate) struct Looks;

impl<T> Play<(), SeatView<T>> for Looks {
    ghost use Rattle.std.specs.Prelude.{◌≡◌};
    ghost use Rattle.pass_book.specs.View.{HeldAgrees};

    ghost then = { λ _ before _ after. (after ≡ before) × HeldAgrees before.0 };
}

/// Takes a slip in, or lets it out.
pub(crate) struct Moves;

impl<T> Split<SeatView<T>> for Moves {
    ghost use Rattle.pass_book.specs.View.{put_out, gone_out};

    ghost left = { put_out };

    ghost right = { gone_out };
}

impl<T> Join<SeatView<T>> for Moves {
    ghost use Rattle.pass_book.specs.View.{taken_in, spent};

    ghost both = { taken_in };

    ghost spent = { spent };
}
