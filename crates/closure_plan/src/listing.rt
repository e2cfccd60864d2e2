//! Names in the order in which they came, each of which is found by a binary search.

ghost use Rattle.std.specs.Prelude.{◌≡◌, ◌<◌, ◌++◌, ◌∷◌, [], false, length, OnOk, OnErr, IfSome, IfNone};
ghost use Rattle.std.specs.List.Sorted.{IsPermutation};
ghost use Rattle.closure_plan.specs.Names.{has_name};
ghost use Rattle.closure_plan.specs.Plan.{name_at};

use crate::plan::order::{put_number, search};
use conda_name::Name;
use std::alloc::{AllocError, Global};
use std::marker::Model;

// Names, and their numbers in the order of names. Contracts see the names.
#[derive(Drop)]
pub(crate) struct Listing {
    names: Vec<Name>,
    order: Vec<usize>,
}

impl Model for Listing {
    ghost use Rattle.std.specs.Prelude.{List, ℕ};
    ghost use Rattle.closure_plan.specs.Fresh.{IsOrder};

    ghost Value = { List (List ℕ) };

    ghost view = { λ l. l.names.items };

    ghost invariant = { λ l. IsOrder l.names.items l.names.items l.order.items };
}

impl Listing {
    // No names.
    pub(crate) fn new(alloc: Global) -> Listing
        ensures { result ≡ [] }
    {
        Listing {
            names: Vec::new(alloc),
            order: Vec::new(alloc),
        }
    }

    // Whether a name is there.
    pub(crate) fn has(&self, name: &str) -> bool
        ensures { result ≡ has_name self.now name.now }
    {
        search(&self.names, &self.order, name.as_bytes()).is_ok()
    }

    // The number of a name, or None where it isn't there.
    pub(crate) fn number(&self, name: &str) -> Option<usize>
        ensures some { IfSome result
            (λ k. (k < length self.now) × (name_at self.now k ≡ name.now)) }
        ensures none { IfNone result (has_name self.now name.now ≡ false) }
    {
        match search(&self.names, &self.order, name.as_bytes()) {
            Ok(at) => Some(self.order[at]),
            Err(_) => None,
        }
    }

    // Adds a name behind the others.
    pub(crate) fn push(&mut self, name: Name) -> Result<(), AllocError>
        ensures ok { OnOk result (self.new ≡ self.old ++ name ∷ []) }
        ensures err { OnErr result (self.new ≡ self.old) }
    {
        self.names.reserve(1)?;
        self.order.reserve(1)?;
        self.names.push_reserved(name);
        put_number(&self.names, self.names.len() - 1, &mut self.order);
        Ok(())
    }

    // The names, by name, so that each of them goes behind those that were put among others before it.
    pub(crate) fn into_names(self) -> Vec<Name>
        ensures { IsPermutation self result.items }
    {
        let Listing {
            mut names,
            order: _,
        } = self;
        names.sort_unstable_by(|a, b| a.as_str().cmp(b.as_str()));
        names
    }
}
