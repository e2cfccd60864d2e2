//! A request.

use crate::channel::Channel;
use crate::options::{Format, Priority};
use match_spec::Spec;
use mp_codec::Text;
use std::marker::Model;

/// A request: the channels and subdirs in which packages are looked for, what they have to match, and
/// whether what they depend on is looked for too. Contracts see an `Asking`.
/// (`docs/FORMATS.md`, "Requests".)
#[derive(Debug, Drop)]
pub struct Request {
    /// The channels, the most important first.
    pub channels: Vec<Channel>,
    /// The subdirs of each channel.
    pub subdirs: Vec<Text>,
    /// What packages have to match.
    pub specs: Vec<Spec>,
    /// Whether what packages depend on is left alone.
    pub flat: bool,
    /// Which files of a package are asked for.
    pub format: Format,
    /// From which channels a name is taken.
    pub priority: Priority,
}

impl Model for Request {
    ghost use Rattle.closure_request.specs.Request.{Asking};

    ghost Value = { Asking };

    ghost view = { λ r. record {
      channels = r.channels.items;
      subdirs = r.subdirs.items;
      specs = r.specs.items;
      flat = r.flat;
      format = r.format;
      priority = r.priority;
    } };
}
