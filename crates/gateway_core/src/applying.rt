//! One event on a world.

ghost use Rattle.std.specs.Prelude.{◌≡◌, ◌<◌, true, false, Some, length, slice_get, slice_set};
ghost use Rattle.gateway_core.specs.declared.world.Event.TheVariants.{Refresh};
ghost use Rattle.gateway_core.specs.declared.world.Place.TheVariants.{Cancelled};
ghost use Rattle.gateway_core.specs.Events.{CancelledAt, Does, Keeps, OpenedAt, RefreshedAt, TurnedAt, is_enabled};
ghost use Rattle.gateway_core.specs.Places.{is_idle, is_running, is_unopened};
ghost use Rattle.gateway_core.specs.Sound.{IsSound};

use crate::turning::{open, turn};
use crate::world::{Event, Place, World};
use channel_url::index_url;
use link_io::Dial;
use pass_book::Naming;
use std::alloc::Global;
use std::mem;

/// Does an event, and says whether it might happen. One that may not changes nothing.
pub fn apply<N: Naming, D: Dial>(alloc: Global, world: &mut World<N, D>, event: &Event) -> bool
    requires { IsSound D.Link.facts D.Link.from world.old }
    ensures enabled { result ≡ is_enabled world.old event.now }
    ensures keeps { Keeps D.Link.facts D.Link.from world.old world.new }
    ensures done { result ≡ true →
        Does D.Link.facts D.Link.from event.now world.old world.new }
    ensures refused { result ≡ false → world.new ≡ world.old }
{
    match *event {
        Event::Opened(i) => opens(alloc, world, i),
        Event::Turn(i) => turns(alloc, world, i),
        Event::Cancel(i) => cancels(world, i),
        Event::Refresh(channel, subdir) => refreshes(alloc, world, channel, subdir),
    }
}

fn opens<N: Naming, D: Dial>(alloc: Global, world: &mut World<N, D>, i: usize) -> bool
    requires { IsSound D.Link.facts D.Link.from world.old }
    ensures enabled { result ≡ is_unopened (slice_get world.old.places.items i) }
    ensures keeps { Keeps D.Link.facts D.Link.from world.old world.new }
    ensures done { result ≡ true → OpenedAt D.Link.facts D.Link.from i world.old world.new }
    ensures refused { result ≡ false → world.new ≡ world.old }
{
    if !waits_at(&world.places, i) {
        return false;
    }
    let Place::Unopened(request) = take_place(&mut world.places, i) else {
        unreachable!()
    };
    let place = open(alloc, &mut world.table, &mut world.door, request);
    set_place(&mut world.places, i, place);
    true
}

fn turns<N: Naming, D: Dial>(alloc: Global, world: &mut World<N, D>, i: usize) -> bool
    requires { IsSound D.Link.facts D.Link.from world.old }
    ensures enabled { result ≡ is_running (slice_get world.old.places.items i) }
    ensures keeps { Keeps D.Link.facts D.Link.from world.old world.new }
    ensures done { result ≡ true → TurnedAt D.Link.facts D.Link.from i world.old world.new }
    ensures refused { result ≡ false → world.new ≡ world.old }
{
    if !runs_at(&world.places, i) {
        return false;
    }
    let Place::Running(query) = take_place(&mut world.places, i) else {
        unreachable!()
    };
    let place = turn(alloc, &mut world.table, query);
    set_place(&mut world.places, i, place);
    true
}

fn cancels<N: Naming, D: Dial>(world: &mut World<N, D>, i: usize) -> bool
    requires { IsSound D.Link.facts D.Link.from world.old }
    ensures enabled { result ≡ is_idle (slice_get world.old.places.items i) }
    ensures keeps { Keeps D.Link.facts D.Link.from world.old world.new }
    ensures done { result ≡ true → CancelledAt i world.old world.new }
    ensures refused { result ≡ false → world.new ≡ world.old }
{
    if !is_idle_at(&world.places, i) {
        return false;
    }
    let Place::Running(query) = take_place(&mut world.places, i) else {
        unreachable!()
    };
    query.cancel(&mut world.table, &mut world.door);
    true
}

fn refreshes<N: Naming, D: Dial>(
    alloc: Global,
    world: &mut World<N, D>,
    channel: usize,
    subdir: usize,
) -> bool
    requires { IsSound D.Link.facts D.Link.from world.old }
    ensures enabled { result ≡ is_enabled world.old (Refresh channel subdir) }
    ensures keeps { Keeps D.Link.facts D.Link.from world.old world.new }
    ensures done { result ≡ true → RefreshedAt channel subdir world.old world.new }
    ensures refused { result ≡ false → world.new ≡ world.old }
{
    if channel >= world.channels.len() || subdir >= world.subdirs.len() {
        return false;
    }
    let base = &world.channels[channel].base;
    let Ok(url) = index_url(alloc, base, world.subdirs[subdir].as_str()) else {
        return true;
    };
    let _given_up = world.table.refresh(&mut world.door, url);
    true
}

// Whether a request waits at a place.
fn waits_at<N: Naming, D: Dial>(places: &[Place<N, D>], i: usize) -> bool
    ensures { result ≡ is_unopened (slice_get places.now i) }
{
    matches!(places.get(i), Some(Place::Unopened(_)))
}

// Whether a query runs at a place.
fn runs_at<N: Naming, D: Dial>(places: &[Place<N, D>], i: usize) -> bool
    ensures { result ≡ is_running (slice_get places.now i) }
{
    matches!(places.get(i), Some(Place::Running(_)))
}

// Whether a query runs at a place that has nothing in hand.
fn is_idle_at<N: Naming, D: Dial>(places: &[Place<N, D>], i: usize) -> bool
    ensures { result ≡ is_idle (slice_get places.now i) }
{
    match places.get(i) {
        Some(Place::Running(query)) => !query.has_parcel(),
        _ => false,
    }
}

// Takes out what stands at a place, and leaves it cancelled.
fn take_place<N: Naming, D: Dial>(places: &mut Vec<Place<N, D>>, i: usize) -> Place<N, D>
    requires { i < length places.old.items }
    ensures value { slice_get places.old.items i ≡ Some result }
    ensures items { places.new.items ≡ slice_set places.old.items i Cancelled }
{
    mem::replace(&mut places[i], Place::Cancelled)
}

fn set_place<N: Naming, D: Dial>(places: &mut Vec<Place<N, D>>, i: usize, place: Place<N, D>)
    requires { i < length places.old.items }
    ensures { places.new.items ≡ slice_set places.old.items i place }
{
    places[i] = place;
}
