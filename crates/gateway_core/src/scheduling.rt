//! A list of events, one after another.

ghost use Rattle.std.specs.Prelude.{◌≡◌, ℕ, Some, IfOk, IfErr, List, map, slice_get};
ghost use Rattle.closure_request.specs.Request.{Asking};
ghost use Rattle.query_needs.specs.Targets.{IsFormed};
ghost use Rattle.gateway_core.specs.declared.world.Place.TheVariants.{Unopened};
ghost use Rattle.gateway_core.specs.Schedules.{IsRefused, IsStopped, Ran, Runs};
ghost use Rattle.gateway_core.specs.Sound.{Fits, IsSound, first_channels, first_subdirs};

use crate::applying::apply;
use crate::world::{Event, Place, ScheduleRefusal, World};
use closure_request::{Channel, Request};
use flight_table::{Saying, Table};
use link_io::Dial;
use mp_codec::Text;
use pass_book::{Naming, Unnamed};
use std::alloc::{AllocError, Global};

/// Makes a world of requests, each of which has to be well formed, and does the events in order.
///
/// `NotEnabled` at the first event that may not happen, with its number and the world before it.
/// `Memory` where there was none for the world, before the first event, with the dialer as it was.
pub fn run_schedule<N: Naming, D: Dial>(
    alloc: Global,
    unnamed: Unnamed<Saying>,
    dial: D,
    keep: u64,
    requests: Vec<Request>,
    events: &[Event],
) -> Result<World<N, D>, ScheduleRefusal<N, D>>
    requires named { unnamed ≡ N.table }
    requires formed { (i : ℕ) (r : Asking) → slice_get requests.items i ≡ Some r → IsFormed r }
    ensures ok { IfOk result (Runs D.Link.facts D.Link.from keep (D.dialed dial) (D.origin dial)
        requests.items events.now) }
    ensures err { IfErr result (IsRefused D.Link.facts D.Link.from dial D.dialed D.origin keep
        requests.items events.now) }
{
    let Ok(channels) = channels_of(alloc, &requests) else {
        return Err(ScheduleRefusal::Memory(dial));
    };
    let Ok(subdirs) = subdirs_of(alloc, &requests) else {
        return Err(ScheduleRefusal::Memory(dial));
    };
    let Ok(places) = places_of(alloc, requests) else {
        return Err(ScheduleRefusal::Memory(dial));
    };
    let (table, door) = Table::new(alloc, unnamed, dial, keep);
    let world = World {
        table,
        door,
        channels,
        subdirs,
        places,
    };
    run_events(alloc, world, events)
}

// Does the events in order, and stops at the first that may not happen.
fn run_events<N: Naming, D: Dial>(
    alloc: Global,
    mut world: World<N, D>,
    events: &[Event],
) -> Result<World<N, D>, ScheduleRefusal<N, D>>
    requires { IsSound D.Link.facts D.Link.from world }
    ensures ok { IfOk result (λ w. IsSound D.Link.facts D.Link.from w
        × Ran D.Link.facts D.Link.from events.now world w
        × ((rs : List Asking) → Fits rs world → Fits rs w)) }
    ensures err { IfErr result (IsStopped D.Link.facts D.Link.from world events.now) }
{
    for (i, event) in events.iter().enumerate() {
        if !apply(alloc, &mut world, event) {
            return Err(ScheduleRefusal::NotEnabled(i, world));
        }
    }
    Ok(world)
}

// Copies of the channels of the first request.
fn channels_of(alloc: Global, requests: &[Request]) -> Result<Vec<Channel>, AllocError>
    ensures { IfOk result (λ copies. copies.items ≡ first_channels requests.now) }
{
    let mut copies = Vec::new(alloc);
    if let Some(first) = requests.first() {
        for channel in &first.channels {
            copies.push(channel.copy(alloc)?)?;
        }
    }
    Ok(copies)
}

// Copies of its subdirs.
fn subdirs_of(alloc: Global, requests: &[Request]) -> Result<Vec<Text>, AllocError>
    ensures { IfOk result (λ copies. copies.items ≡ first_subdirs requests.now) }
{
    let mut copies = Vec::new(alloc);
    if let Some(first) = requests.first() {
        for subdir in &first.subdirs {
            copies.push(Text::copy(alloc, subdir.as_str())?)?;
        }
    }
    Ok(copies)
}

// A place for each request, at which it waits.
fn places_of<N: Naming, D: Dial>(
    alloc: Global,
    requests: Vec<Request>,
) -> Result<Vec<Place<N, D>>, AllocError>
    ensures { IfOk result (λ places. places.items ≡ map Unopened requests.items) }
{
    let mut places = Vec::with_capacity(alloc, requests.len())?;
    for request in requests {
        places.push(Place::Unopened(request))?;
    }
    Ok(places)
}
