//! Making a plan.

ghost use Rattle.std.specs.Prelude.{◌≡◌, ◌++◌, ◌∷◌, [], IfOk, OnOk};
ghost use Rattle.std.specs.List.{flat_map, range_with_len};
ghost use Rattle.closure_request.specs.Request.{root_names_of};
ghost use Rattle.closure_plan.specs.Fresh.{Grows, IsOrder};
ghost use Rattle.closure_plan.specs.Start.{IsUntouched, places_in, unpinned};

use crate::holders::{LeafHolder, PinHolder};
use crate::listing::Listing;
use crate::plan::Plan;
use crate::plan::giving::room_for;
use crate::plan::order::put_numbers;
use crate::roots::Roots;
use crate::sources::{Place, Sources};
use closure_request::Request;
use conda_name::Name;
use match_spec::Spec;
use std::alloc::{AllocError, Global};

impl<P: PinHolder, H: LeafHolder> Plan<P, H> {
    /// A plan of a request: nothing is pinned, given or marked, and the names are those of its specs.
    pub fn new(alloc: Global, request: Request) -> Result<Plan<P, H>, AllocError>
        ensures { IfOk result (λ plan. IsUntouched request plan) }
    {
        let places = places_of(alloc, request.channels.len(), request.subdirs.len())?;
        let names = roots(alloc, &request.specs)?;
        let order = numbers_of(alloc, &names)?;
        let owing = Vec::from_slice(alloc, &order)?;
        let pins = no_pins(alloc, places.len())?;
        let room = room_for(places.len(), names.len(), 0)?;
        let marks = Vec::with_capacity(alloc, room)?;
        let asked = Roots::of(alloc, &request.specs)?;
        Ok(Plan {
            sources: Sources {
                request,
                roots: asked,
                places,
                pins,
            },
            names,
            order,
            owing,
            leaves: Vec::new(alloc),
            marks,
            cells: Vec::new(alloc),
        })
    }
}

// The slots of some channels and subdirs, channel first.
fn places_of(alloc: Global, channels: usize, subdirs: usize) -> Result<Vec<Place>, AllocError>
    ensures { IfOk result (λ v. v.items ≡ flat_map (places_in subdirs) (range_with_len 0
        channels)) }
{
    let mut places = Vec::new(alloc);
    for channel in 0..channels {
        add_places(&mut places, channel, subdirs)?;
    }
    Ok(places)
}

// Adds the slots of a channel.
fn add_places(places: &mut Vec<Place>, channel: usize, subdirs: usize) -> Result<(), AllocError>
    ensures { OnOk result (places.new.items ≡ places.old.items ++ places_in subdirs channel) }
{
    for subdir in 0..subdirs {
        places.push(Place { channel, subdir })?;
    }
    Ok(())
}

// The names of some specs, each once.
fn roots(alloc: Global, specs: &[Spec]) -> Result<Vec<Name>, AllocError>
    ensures { IfOk result (λ names. Grows [] [] names.items (root_names_of specs.now)) }
{
    let names = root_listing(alloc, specs)?;
    Ok(names.into_names())
}

// The same, to be looked up.
fn root_listing(alloc: Global, specs: &[Spec]) -> Result<Listing, AllocError>
    ensures { IfOk result (λ names. Grows [] [] names (root_names_of specs.now)) }
{
    let mut names = Listing::new(alloc);
    for spec in specs {
        add_root(alloc, spec.name(), &mut names)?;
    }
    Ok(names)
}

// Adds a name, where it isn't there.
fn add_root(alloc: Global, name: &Name, names: &mut Listing) -> Result<(), AllocError>
    ensures { OnOk result (Grows [] names.old names.new (name.now ∷ [])) }
{
    if names.has(name.as_str()) {
        return Ok(());
    }
    names.push(name.copy(alloc)?)?;
    Ok(())
}

// The numbers of some names, by name.
fn numbers_of(alloc: Global, names: &[Name]) -> Result<Vec<usize>, AllocError>
    ensures { IfOk result (λ order. IsOrder names.now names.now order.items) }
{
    let mut order = Vec::with_capacity(alloc, names.len())?;
    put_numbers(names, 0, &mut order);
    Ok(order)
}

// As many slots without a pin.
fn no_pins<P: PinHolder>(alloc: Global, count: usize) -> Result<Vec<Option<P>>, AllocError>
    ensures { IfOk result (λ pins. pins.items ≡ unpinned count) }
{
    let mut pins = Vec::new(alloc);
    for i in 0..count {
        let _number = i;
        pins.push(None)?;
    }
    Ok(pins)
}
