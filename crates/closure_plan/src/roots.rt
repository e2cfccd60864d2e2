//! The names of the specs of a request, each with its specs, so that a row is held against those of its
//! name alone.

ghost use Rattle.std.specs.Prelude.{◌≡◌, ◌<◌, ◌+◌, List, length, slice_get, Some, IfOk, OnOk};
ghost use Rattle.std.specs.Option.{option_map};
ghost use Rattle.match_spec.specs.Parts.{Meaning};
ghost use Rattle.closure_plan.specs.Roots.{AreRoots, asked_of, specs_at, with_root, with_spec};

use crate::listing::Listing;
use conda_name::Name;
use match_spec::Spec;
use std::alloc::{AllocError, Global};
use std::marker::Model;

// Names, and the numbers of the specs of each.
#[derive(Drop)]
pub(crate) struct Roots {
    names: Listing,
    specs: Vec<Vec<usize>>,
}

impl Model for Roots {
    ghost use Rattle.std.specs.Prelude.{◌≡◌, map, length};
    ghost use Rattle.closure_plan.specs.Roots.{Roots as RootsSeen};

    ghost Value = { RootsSeen };

    ghost view = { λ r. record { names = r.names; specs = map (λ v. v.items) r.specs.items } };

    ghost invariant = { λ r. length r.specs.items ≡ length r.names };
}

impl Roots {
    // The names of some specs, each with the numbers of its specs.
    pub(crate) fn of(alloc: Global, specs: &[Spec]) -> Result<Roots, AllocError>
        ensures { IfOk result (AreRoots specs.now (length specs.now)) }
    {
        let mut roots = Roots {
            names: Listing::new(alloc),
            specs: Vec::new(alloc),
        };
        for i in 0..specs.len() {
            roots.add(alloc, specs[i].name(), i)?;
        }
        Ok(roots)
    }

    // The numbers of the specs of a name, or None where no spec has it.
    pub(crate) fn asked(&self, name: &str) -> Option<&[usize]>
        ensures { (specs : List Meaning) → AreRoots specs (length specs) self.now
            → option_map (λ numbers. specs_at specs numbers.now) result ≡ asked_of specs name.now }
    {
        match self.names.number(name) {
            Some(k) => Some(&self.specs[k]),
            None => None,
        }
    }

    // Adds the number of a spec that has a name.
    fn add(&mut self, alloc: Global, name: &Name, spec: usize) -> Result<(), AllocError>
        ensures { OnOk result ((specs : List Meaning)
            → option_map (λ (s : Meaning). s.name) (slice_get specs spec) ≡ Some name.now
            → AreRoots specs spec self.old → AreRoots specs (spec + 1) self.new) }
    {
        match self.names.number(name.as_str()) {
            Some(k) => self.add_to(k, spec),
            None => self.add_new(alloc, name, spec),
        }
    }

    // Adds the number of a spec to those of the name of a number.
    fn add_to(&mut self, k: usize, spec: usize) -> Result<(), AllocError>
        requires { k < length self.old.names }
        ensures { OnOk result (self.new ≡ with_spec k spec self.old) }
    {
        self.specs[k].push(spec)?;
        Ok(())
    }

    // Adds a name with the number of its first spec.
    fn add_new(&mut self, alloc: Global, name: &Name, spec: usize) -> Result<(), AllocError>
        ensures { OnOk result (self.new ≡ with_root name.now spec self.old) }
    {
        let name = name.copy(alloc)?;
        let mut numbers = Vec::new(alloc);
        numbers.push(spec)?;
        self.specs.reserve(1)?;
        self.names.push(name)?;
        self.specs.push_reserved(numbers);
        Ok(())
    }
}
