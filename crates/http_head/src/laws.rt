//! Laws over the definitions, each the contract of a function with no body.

ghost use Rattle.http_head.specs.Law.{OneReply, FrontsAreGood, FrontsHaveBody, EndedIsDecided, NothingIsUnsettled, UnsettledIsShort};
ghost use Rattle.http_head.specs.Served.{ServedHasBody};

/// Bytes are one reply.
pub fn bytes_are_one_reply()
    ensures { OneReply }
{}

/// Each front of a whole reply that has a body is partial, or that body.
pub fn fronts_of_replies_are_good()
    ensures { FrontsAreGood }
{}

/// A front of a whole reply that has a body, once it is decided, has this body.
pub fn decided_fronts_have_the_body()
    ensures { FrontsHaveBody }
{}

/// What has ended is decided.
pub fn ended_replies_are_decided()
    ensures { EndedIsDecided }
{}

/// A file that is given with its length is the body of its reply.
pub fn a_served_file_is_the_body()
    ensures { ServedHasBody }
{}

/// Nothing is decided before the first byte.
pub fn nothing_is_decided_before_the_first_byte()
    ensures { NothingIsUnsettled }
{}

/// Bytes that aren't decided are at most 33,619,968: the longest head and the longest body.
pub fn undecided_bytes_are_few()
    ensures { UnsettledIsShort }
{}
