//! What is asked of a world: a text with `|` between channels, subdirs, `flat` or `deep`, the words of
//! the format and of the priority, and the line of specs.

use crate::row::pieces_of;
use anyhow::{Context, anyhow};
use closure_request::{Channel, Format, Priority, Request};
use link_io::HttpUrl;
use mp_codec::Text;
use std::alloc::Global;

/// What is asked of a world.
#[derive(Drop)]
pub(crate) struct Ask<'a> {
    pub(crate) channels: &'a str,
    pub(crate) subdirs: &'a str,
    pub(crate) flat: bool,
    pub(crate) format: Format,
    pub(crate) priority: Priority,
    pub(crate) specs: &'a str,
}

impl<'a> Ask<'a> {
    /// What a text asks.
    pub(crate) fn read(text: &'a str) -> Option<Ask<'a>> {
        let (channels, rest) = text.split_once('|')?;
        let (subdirs, rest) = rest.split_once('|')?;
        let (depth, rest) = rest.split_once('|')?;
        let (format, rest) = rest.split_once('|')?;
        let (priority, specs) = rest.split_once('|')?;
        Some(Ask {
            channels,
            subdirs,
            flat: depth == "flat",
            format: Format::of(format)?,
            priority: Priority::of(priority)?,
            specs,
        })
    }

    /// The request. No specs are asked for by `-`.
    pub(crate) fn request(&self, alloc: Global) -> anyhow::Result<Request> {
        let channels = channels_of(alloc, self.channels)?;
        let subdirs = subdirs_of(alloc, self.subdirs)?;
        if self.specs == "-" {
            return Ok(Request {
                channels,
                subdirs,
                specs: Vec::new(alloc),
                flat: self.flat,
                format: self.format,
                priority: self.priority,
            });
        }
        Request::read(
            alloc,
            channels.as_slice(),
            subdirs.as_slice(),
            self.flat,
            self.format,
            self.priority,
            self.specs.as_bytes(),
        )
        .map_err(|refusal| anyhow!("{refusal:?}"))
    }
}

// The channels of a list, each below an address of its own.
fn channels_of(alloc: Global, list: &str) -> anyhow::Result<Vec<Channel>> {
    let mut channels = Vec::new(alloc);
    for name in pieces_of(alloc, list)?.iter() {
        let mut base = String::from_str(alloc, "http://h/")?;
        base.push_str(name)?;
        base.push_str("/")?;
        channels.push(Channel {
            name: Text::copy(alloc, name)?,
            base: HttpUrl::read(alloc, base.as_str())
                .ok()
                .context("no address")?,
        })?;
    }
    Ok(channels)
}

fn subdirs_of(alloc: Global, list: &str) -> anyhow::Result<Vec<Text>> {
    let mut subdirs = Vec::new(alloc);
    for name in pieces_of(alloc, list)?.iter() {
        subdirs.push(Text::copy(alloc, name)?)?;
    }
    Ok(subdirs)
}
