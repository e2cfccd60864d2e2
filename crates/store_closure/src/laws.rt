//! A law of how lines end, the contract of a function that does nothing.

ghost use Rattle.store_closure.specs.Laws.{LinesHaveOneEnd};

/// Lines have one end at most: what they are answered with, or the first file that is bad.
pub fn lines_have_one_end()
    ensures { LinesHaveOneEnd }
{}
