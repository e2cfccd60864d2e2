//! The names that a book, and a line of it, go by.

use std::marker::Brand;

/// Names one book: all slips over this type are of the book that is open under it.
pub trait Naming {
    ghost use Rattle.atomic_table.specs.Seated.{TableId};

    // The table that the book stands on.
    ghost table: { TableId };
}

impl Naming for Brand {
    ghost use Rattle.pass_book.specs.Lines.{no_table};

    ghost table = { no_table };
}

/// What a line may be: plain data that contracts alone see.
pub trait Line {
    // A line that stands where there is none, and never shows.
    ghost blank: { Self };
}

/// Names one line, which the caller picks at the call. It has no bytes.
pub trait NewLine<T> {
    ghost line: { T };
}
