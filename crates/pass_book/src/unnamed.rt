//! A book that has its memory and no name yet.

use crate::rule::{Place, Seats};
use atomic_table::Table;
use std::alloc::{AllocError, Global};
use std::marker::Model;

/// The memory of a book, before a type names it. Contracts see which table it is.
///
/// A name can be picked once the table is there: `Book::open` takes this value under the name of its
/// table.
#[derive(Drop)]
pub struct Unnamed<T> {
    pub(crate) seats: Seats<T>,
    pub(crate) seat: Place<T>,
}

impl<T> Model for Unnamed<T> {
    ghost use Rattle.std.specs.Prelude.{◌≡◌, []};
    ghost use Rattle.atomic_table.specs.Seated.{TableId, table_id_coded};
    ghost use Rattle.pass_book.specs.View.{opened};

    ghost Value = { TableId };

    ghost coded = { table_id_coded };

    ghost view = { λ b. b.seats.shared.table_id };

    ghost invariant = { λ b. (b.seat.table_id ≡ b.seats.shared.table_id) × (b.seats.shared.table_id.words ≡ 1) × (b.seat.me ≡ (opened, [])) };
}

impl<T> Unnamed<T> {
    /// A book without lines and without a name. No other call of this crate takes memory.
    ///
    /// `AllocError` where there is none.
    pub fn new(alloc: Global) -> Result<Unnamed<T>, AllocError> {
        let (seats, seat) = Table::of_words(alloc, &[0], &())?;
        Ok(Unnamed { seats, seat })
    }
}
