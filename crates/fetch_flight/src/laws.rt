//! Laws over the definitions and over any connection.

ghost use Rattle.std.specs.Prelude.{◌≡◌, ℕ, List, Some, true};
ghost use Rattle.link_io.specs.Origin.{Replies, reply_at, plain};
ghost use Rattle.http_head.specs.Reply.{HasBody};
ghost use Rattle.http_reply.specs.Going.{IsDecided};
ghost use Rattle.fetch_flight.specs.Verdict.{OneVerdict};

use link_io::{Conn, Parcel};

/// A parcel whose connection comes from a world that has a reply with a body for its address has
/// this body, once it is decided.
pub fn a_served_parcel_has_the_body<L: Conn>(parcel: &Parcel<L>)
    ensures { (world : Replies) (reply body : List ℕ) → L.from parcel.now.link (plain (Some world))
        → reply_at parcel.now.target.url world ≡ Some reply → HasBody reply true body
        → IsDecided parcel.now → HasBody parcel.now.received parcel.now.ended body }
{
    let _link = parcel.link();
}

/// A parcel comes to one verdict.
pub fn a_parcel_comes_to_one_verdict<L: Conn>(_parcel: &Parcel<L>)
    ensures { OneVerdict L }
{}
