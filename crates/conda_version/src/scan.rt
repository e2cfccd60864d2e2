//! The search for the first fault of a constraint.

ghost use Rattle.std.specs.Prelude.{◌≡◌, ◌+◌, ◌<◌, ◌≤◌, ◌^◌, length};
ghost use Rattle.conda_version.specs.Constraint.{constraint_fault, ends_item, faults_here, first_of, if_so, leaf_faults};
ghost use Rattle.conda_version.specs.Leaf.{leaf_of};

use crate::fault::ConstraintFault;
use crate::leaf::LeafTest;
use crate::level::LEVELS;
use crate::token::{Found, Piece};

// What is known behind a token: whether it ends an item, how many `(` are open, where the outermost
// of them stands, and the first fault so far.
#[derive(Clone, Copy)]
pub(crate) struct Scan {
    item: bool,
    depth: usize,
    outermost: usize,
    first: Option<ConstraintFault>,
}

// The first fault that stands in a text, if one does.
pub(crate) fn first_fault(text: &[u8]) -> Option<ConstraintFault>
    ensures { result ≡ constraint_fault text.now }
{
    let mut scan = Scan {
        item: false,
        depth: 0,
        outermost: 0,
        first: None,
    };
    let mut at = 0;
    let mut rest = text;
    'tokens: while let Some(found) = Found::next(at, rest) {
        scan = scan.behind(found.at, found.piece);
        at = found.behind;
        rest = found.rest;
    }
    scan.end(text.len())
}

impl Scan {
    ghost use Rattle.conda_version.specs.Scan.{depth_after, outermost_after, scan_first};
    ghost use Rattle.conda_version.specs.Seen.{token_in, token_len};
    ghost use Rattle.std.specs.Prelude.{[]};

    // What is known behind a token at a place.
    fn behind(self, at: usize, piece: Piece<'_>) -> Scan
        requires fits { at + token_len (token_in piece) < 2 ^ 64 }
        requires depth { self.depth + 1 < 2 ^ 64 }
        ensures item { result.item ≡ ends_item (token_in piece.entry) }
        ensures depth { result.depth ≡ depth_after self.depth (token_in piece.entry) }
        ensures outermost { result.outermost
            ≡ outermost_after self.depth self.outermost at (token_in piece.entry) }
        ensures first { result.first
            ≡ first_of self.first (faults_here self.item self.depth at (token_in piece.entry)) }
    {
        Scan {
            item: piece.ends_item(),
            depth: self.depth_after(piece),
            outermost: self.outermost_after(at, piece),
            first: self.first_at(at, piece),
        }
    }

    // How many `(` are open behind a token.
    fn depth_after(self, piece: Piece<'_>) -> usize
        requires { self.depth + 1 < 2 ^ 64 }
        ensures { result ≡ depth_after self.depth (token_in piece.entry) }
    {
        match piece {
            Piece::Left => self.depth + 1,
            Piece::Right => self.depth.saturating_sub(1),
            Piece::Leaf(_) | Piece::And | Piece::Or => self.depth,
        }
    }

    // Where the outermost `(` that is open stands, behind a token at a place.
    fn outermost_after(self, at: usize, piece: Piece<'_>) -> usize
        ensures { result ≡ outermost_after self.depth self.outermost at (token_in piece.entry) }
    {
        match piece {
            Piece::Left if self.depth == 0 => at,
            Piece::Left | Piece::Right | Piece::Leaf(_) | Piece::And | Piece::Or => self.outermost,
        }
    }

    // The first fault, up to a token at a place.
    fn first_at(self, at: usize, piece: Piece<'_>) -> Option<ConstraintFault>
        requires { at + token_len (token_in piece) < 2 ^ 64 }
        ensures { result
            ≡ first_of self.first (faults_here self.item self.depth at (token_in piece.entry)) }
    {
        let empty = ConstraintFault::Empty(at as u64);
        let paren = ConstraintFault::Paren(at as u64);
        match piece {
            Piece::Leaf(text) => first_in_leaf(noted(self.first, self.item, paren), at, text),
            Piece::Left => noted(self.first, self.item || self.depth >= LEVELS, paren),
            Piece::Right => noted(noted(self.first, !self.item, empty), self.depth == 0, paren),
            Piece::And | Piece::Or => noted(self.first, !self.item, empty),
        }
    }

    // The first fault, up to the end of a text.
    fn end(self, end: usize) -> Option<ConstraintFault>
        ensures { result ≡ scan_first self end [] }
    {
        let first = noted(self.first, !self.item, ConstraintFault::Empty(end as u64));
        noted(
            first,
            self.depth > 0,
            ConstraintFault::Paren(self.outermost as u64),
        )
    }
}

// The first fault, with one more where something is so.
fn noted(
    first: Option<ConstraintFault>,
    so: bool,
    fault: ConstraintFault,
) -> Option<ConstraintFault>
    ensures { result ≡ first_of first (if_so so fault) }
{
    if so {
        Some(fault.or_earlier(first))
    } else {
        first
    }
}

// The first fault, with that of a leaf that begins at a place.
fn first_in_leaf(first: Option<ConstraintFault>, at: usize, text: &[u8]) -> Option<ConstraintFault>
    requires { at + length text.now < 2 ^ 64 }
    ensures { result ≡ first_of first (leaf_faults at (leaf_of text.now)) }
{
    match LeafTest::read(text) {
        Ok(_) => first,
        Err(fault) => Some(fault.shifted(at).or_earlier(first)),
    }
}
