//! The places of channels and subdirs in a store.

ghost use Rattle.std.specs.Prelude.{◌≡◌, ◌++◌, true, map, IfOk, OnOk};
ghost use Rattle.channel_store.specs.Names.{is_channel_name, is_place, is_subdir_name};
ghost use Rattle.store_closure.specs.Places.{place, places_of};

use crate::names::joined;
use mp_codec::Text;
use std::alloc::{AllocError, Global};
use std::marker::Model;

/// The name of a channel in a store. Contracts see its text.
/// (`docs/FORMATS.md`, "Places and store names".)
#[derive(Debug, Drop)]
pub struct ChannelName {
    text: Text,
}

impl Model for ChannelName {
    ghost use Rattle.std.specs.Prelude.{◌≡◌, List, ℕ, true};
    ghost use Rattle.channel_store.specs.Names.{is_channel_name};

    ghost Value = { List ℕ };

    ghost view = { λ name. name.text };

    ghost invariant = { λ name. is_channel_name name.text ≡ true };
}

impl ChannelName {
    /// A copy of a text that is a channel name.
    pub fn copy(alloc: Global, name: &str) -> Result<ChannelName, AllocError>
        requires { is_channel_name name.now ≡ true }
        ensures { IfOk result (λ it. it ≡ name.now) }
    {
        Ok(ChannelName {
            text: Text::copy(alloc, name)?,
        })
    }

    /// The text, which is a channel name.
    pub fn as_str(&self) -> &str
        ensures value { result.now ≡ self.now }
        ensures name { is_channel_name self.now ≡ true }
    {
        self.text.as_str()
    }
}

/// The name of a subdir in a store. Contracts see its text.
/// (`docs/FORMATS.md`, "Places and store names".)
#[derive(Debug, Drop)]
pub struct SubdirName {
    text: Text,
}

impl Model for SubdirName {
    ghost use Rattle.std.specs.Prelude.{◌≡◌, List, ℕ, true};
    ghost use Rattle.channel_store.specs.Names.{is_subdir_name};

    ghost Value = { List ℕ };

    ghost view = { λ name. name.text };

    ghost invariant = { λ name. is_subdir_name name.text ≡ true };
}

impl SubdirName {
    /// A copy of a text that is a subdir name.
    pub fn copy(alloc: Global, name: &str) -> Result<SubdirName, AllocError>
        requires { is_subdir_name name.now ≡ true }
        ensures { IfOk result (λ it. it ≡ name.now) }
    {
        Ok(SubdirName {
            text: Text::copy(alloc, name)?,
        })
    }

    /// The text, which is a subdir name.
    pub fn as_str(&self) -> &str
        ensures value { result.now ≡ self.now }
        ensures name { is_subdir_name self.now ≡ true }
    {
        self.text.as_str()
    }
}

/// A place of a store: a channel name, `/` and a subdir name. Contracts see its text.
/// (`docs/FORMATS.md`, "Places and store names".)
#[derive(Debug, Drop)]
pub struct StorePlace {
    text: Text,
}

impl Model for StorePlace {
    ghost use Rattle.std.specs.Prelude.{◌≡◌, List, ℕ, true};
    ghost use Rattle.channel_store.specs.Names.{is_place};

    ghost Value = { List ℕ };

    ghost view = { λ place. place.text };

    ghost invariant = { λ place. is_place place.text ≡ true };
}

impl StorePlace {
    /// The place of a subdir of a channel.
    pub fn of(
        alloc: Global,
        channel: &ChannelName,
        subdir: &SubdirName,
    ) -> Result<StorePlace, AllocError>
        ensures { IfOk result (λ it. it ≡ place channel.now subdir.now) }
    {
        Ok(StorePlace {
            text: place_text(alloc, channel.as_str(), subdir.as_str())?,
        })
    }

    /// The text, which is a place.
    pub fn as_str(&self) -> &str
        ensures value { result.now ≡ self.now }
        ensures place { is_place self.now ≡ true }
    {
        self.text.as_str()
    }
}

// The text of a place.
fn place_text(alloc: Global, channel: &str, subdir: &str) -> Result<Text, AllocError>
    requires channel { is_channel_name channel.now ≡ true }
    requires subdir { is_subdir_name subdir.now ≡ true }
    ensures text { IfOk result (λ text. text ≡ place channel.now subdir.now) }
    ensures place { IfOk result (λ text. is_place text ≡ true) }
{
    let front = joined(alloc, channel, "/")?;
    joined(alloc, front.as_str(), subdir)
}

/// The places of all subdirs of all channels, channel first.
pub fn places_of(
    alloc: Global,
    channels: &[ChannelName],
    subdirs: &[SubdirName],
) -> Result<Vec<StorePlace>, AllocError>
    ensures { IfOk result (λ places. places.items ≡ places_of channels.now subdirs.now) }
{
    let mut places = Vec::new(alloc);
    for channel in channels {
        add_places(alloc, channel, subdirs, &mut places)?;
    }
    Ok(places)
}

// Adds the places of all subdirs of a channel.
fn add_places(
    alloc: Global,
    channel: &ChannelName,
    subdirs: &[SubdirName],
    places: &mut Vec<StorePlace>,
) -> Result<(), AllocError>
    ensures { OnOk result (places.new.items
        ≡ places.old.items ++ map (place channel.now) subdirs.now) }
{
    for subdir in subdirs {
        places.push(StorePlace::of(alloc, channel, subdir)?)?;
    }
    Ok(())
}
