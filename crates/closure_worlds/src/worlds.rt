//! Worlds that a generator makes, and what is asked of them.

use crate::arrival;
use crate::ask::Ask;
use crate::dice::Dice;
use crate::row::rows_of;
use crate::sets::{self, NAMES};
use anyhow::Context;
use std::alloc::{AllocError, Global};

const CHANNELS: [&str; 3] = ["c0", "c1", "c2"];

const SUBDIRS: [&str; 2] = ["s0", "s1"];

const VERSIONS: [&str; 3] = ["1", "2", "3"];

// What is asked, piece by piece.
const CHANNEL_LISTS: [&str; 5] = ["c0,c1,c2|", "c2,c0|", "c1|", "c1,c2,c0|", "c0,c2|"];

const SUBDIR_LISTS: [&str; 3] = ["s0,s1|", "s1,s0|", "s1|"];

const DEPTHS: [&str; 4] = ["deep|", "deep|", "deep|", "flat|"];

const FORMATS: [&str; 2] = ["prefer-conda|", "all|"];

const PRIORITIES: [&str; 2] = ["flexible|", "strict|"];

const ENDS: [&str; 4] = ["", " >=2", " >=3", ""];

const FRONTS: [&str; 6] = ["", "", "", "", "c1::", "c2::"];

/// How much was tried, and how much of it was wrong. The counts stand still at the end of their type.
#[derive(Drop)]
pub(crate) struct Tally {
    pub(crate) tried: u64,
    pub(crate) wrong: u64,
}

impl Tally {
    /// Nothing was tried.
    pub(crate) fn new() -> Tally {
        Tally { tried: 0, wrong: 0 }
    }

    /// Counts one more.
    pub(crate) fn add(&mut self, is_right: bool) {
        self.tried = self.tried.saturating_add(1);
        if !is_right {
            self.wrong = self.wrong.saturating_add(1);
        }
    }
}

// One of some texts.
fn pick(dice: &mut Dice, texts: &[&'static str]) -> &'static str {
    let i = dice.roll(texts.len() as u64) as usize;
    match texts.get(i) {
        Some(text) => text,
        None => "",
    }
}

// One of the first names.
fn name(dice: &mut Dice, most: u64) -> &'static str {
    let i = dice.roll(most) as usize;
    match NAMES.get(i) {
        Some(name) => name,
        None => "n0",
    }
}

// Adds a name, now and then in upper case.
fn put_name(dice: &mut Dice, name: &str, text: &mut String) -> Result<(), AllocError> {
    if dice.once_in(6) {
        text.push_str("N")?;
        return text.push_str(name.strip_prefix("n").unwrap_or(name));
    }
    text.push_str(name)
}

// Adds what a row depends on.
fn put_depends(dice: &mut Dice, most: u64, text: &mut String) -> Result<(), AllocError> {
    let count = dice.roll(4);
    if count == 0 {
        return text.push_str("-");
    }
    for i in 0..count {
        if i > 0 {
            text.push_str(",")?;
        }
        let name = name(dice, most);
        put_name(dice, name, text)?;
        if dice.once_in(3) {
            text.push_str(" >=1")?;
        }
    }
    Ok(())
}

// The channel, the subdir and the listed name of a shard.
#[derive(Clone, Copy)]
struct Place {
    channel: &'static str,
    subdir: &'static str,
    name: &'static str,
}

// Adds a text and a blank.
fn put_word(word: &str, text: &mut String) -> Result<(), AllocError> {
    text.push_str(word)?;
    text.push_str(" ")
}

// Adds the name of a file.
fn put_file(name: &str, version: &str, ending: &str, text: &mut String) -> Result<(), AllocError> {
    text.push_str(name)?;
    text.push_str("-")?;
    text.push_str(version)?;
    text.push_str("-0")?;
    put_word(ending, text)
}

// Adds where a row stands.
fn put_place(place: Place, map: &str, text: &mut String) -> Result<(), AllocError> {
    put_word(place.channel, text)?;
    put_word(place.subdir, text)?;
    put_word(place.name, text)?;
    put_word(map, text)
}

// Adds a row of a shard. Now and then its record has another name.
fn put_row(
    dice: &mut Dice,
    most: u64,
    place: Place,
    version: &str,
    is_conda: bool,
    text: &mut String,
) -> Result<(), AllocError> {
    let (map, ending) = if is_conda {
        ("conda", ".conda")
    } else {
        ("tar", ".tar.bz2")
    };
    put_place(place, map, text)?;
    put_file(place.name, version, ending, text)?;
    let named = if dice.once_in(10) {
        name(dice, most)
    } else {
        place.name
    };
    put_name(dice, named, text)?;
    text.push_str(" ")?;
    put_word(version, text)?;
    put_depends(dice, most, text)?;
    text.push_str("\n")
}

// Adds the rows of a shard.
fn put_shard(
    dice: &mut Dice,
    most: u64,
    place: Place,
    text: &mut String,
) -> Result<(), AllocError> {
    for version in VERSIONS {
        if dice.once_in(2) {
            put_row(dice, most, place, version, true, text)?;
        }
        if dice.once_in(3) {
            put_row(dice, most, place, version, false, text)?;
        }
    }
    Ok(())
}

// Adds the shards of a slot.
fn put_slot(
    dice: &mut Dice,
    most: u64,
    channel: &'static str,
    subdir: &'static str,
    text: &mut String,
) -> Result<(), AllocError> {
    for i in 0..most {
        if dice.once_in(3) {
            let name = NAMES.get(i as usize).copied().unwrap_or("n0");
            let place = Place {
                channel,
                subdir,
                name,
            };
            put_shard(dice, most, place, text)?;
        }
    }
    Ok(())
}

// A world of some names.
fn world_of(alloc: Global, dice: &mut Dice, most: u64) -> Result<String, AllocError> {
    let mut text = String::new(alloc);
    for channel in CHANNELS {
        for subdir in SUBDIRS {
            put_slot(dice, most, channel, subdir, &mut text)?;
        }
    }
    Ok(text)
}

// What is asked of such a world.
fn asked_of(alloc: Global, dice: &mut Dice, most: u64) -> Result<String, AllocError> {
    let mut text = String::new(alloc);
    text.push_str(pick(dice, &CHANNEL_LISTS))?;
    text.push_str(pick(dice, &SUBDIR_LISTS))?;
    text.push_str(pick(dice, &DEPTHS))?;
    text.push_str(pick(dice, &FORMATS))?;
    text.push_str(pick(dice, &PRIORITIES))?;
    for i in 0..dice.roll(3).saturating_add(1) {
        if i > 0 {
            text.push_str(";")?;
        }
        put_spec(dice, most, &mut text)?;
    }
    Ok(text)
}

// Adds a spec.
fn put_spec(dice: &mut Dice, most: u64, text: &mut String) -> Result<(), AllocError> {
    let front = pick(dice, &FRONTS);
    text.push_str(front)?;
    text.push_str(name(dice, most))?;
    if front.is_empty() {
        text.push_str(pick(dice, &ENDS))?;
    }
    Ok(())
}

// Whether a world's answer is that of the sets, in three orders of arrival.
fn is_right(alloc: Global, seed: u64) -> anyhow::Result<bool> {
    let mut dice = Dice::new(seed);
    let most = dice.roll(29).saturating_add(2);
    let world = world_of(alloc, &mut dice, most)?;
    let rows = rows_of(alloc, world.as_str())?;
    let text = asked_of(alloc, &mut dice, most)?;
    let ask = Ask::read(text.as_str()).context("nothing is asked")?;
    let wanted = sets::answer(alloc, rows.as_slice(), &ask)?;
    for _ in 0..3 {
        let answer = arrival::answer(alloc, rows.as_slice(), ask.request(alloc)?, &mut dice)?;
        if answer.as_str() != wanted.as_str() {
            return Ok(false);
        }
    }
    Ok(true)
}

/// How many worlds there are, and in how many an answer is another.
pub(crate) fn run(alloc: Global) -> anyhow::Result<Tally> {
    let mut tally = Tally::new();
    for seed in 0..500 {
        tally.add(is_right(alloc, seed)?);
    }
    Ok(tally)
}
