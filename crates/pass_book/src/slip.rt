//! A slip: the token of one line.

use crate::naming::{Line, Naming};
use crate::rule::SeatView;
use atomic_table::Badge;
use std::marker::{Model, PhantomData};

/// A token of one line of the book of this name. Contracts see its number and the line.
///
/// A slip that is dropped leaves its line in the book.
#[derive(Drop)]
pub struct Slip<N: Naming, T: Line> {
    pub(crate) badge: Badge<SeatView<T>>,
    pub(crate) of: PhantomData<N>,
}

impl<N: Naming, T: Line> Model for Slip<N, T> {
    ghost use Rattle.std.specs.Prelude.{◌≡◌, ℕ, [], ◌∷◌};

    ghost Value = { ℕ × T };

    ghost use Rattle.pass_book.specs.View.{of_slip, first_slip};

    ghost view = { λ s. first_slip T.blank s.badge.views };

    ghost invariant = { λ s. (s.badge.table_id ≡ N.table) × (s.badge.views ≡ of_slip (first_slip T.blank s.badge.views).0 (first_slip T.blank s.badge.views).1 ∷ []) };
}
