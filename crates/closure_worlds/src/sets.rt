//! The closure of what is asked, by rounds over sets of names, from the rows of a world alone. It knows
//! specs of three forms: `n`, `n >=V` with a version of one digit, and `c::n`.

use crate::ask::Ask;
use crate::row::{Row, pieces_of};
use closure_request::{Format, Priority};
use std::alloc::{AllocError, Global};

/// The names of packages in the worlds of the generator, ascending by bytes.
pub(crate) const NAMES: [&str; 30] = [
    "n0", "n1", "n10", "n11", "n12", "n13", "n14", "n15", "n16", "n17", "n18", "n19", "n2", "n20",
    "n21", "n22", "n23", "n24", "n25", "n26", "n27", "n28", "n29", "n3", "n4", "n5", "n6", "n7",
    "n8", "n9",
];

// What is asked, in lists.
#[derive(Drop)]
struct Asked<'a> {
    rows: &'a [Row<'a>],
    channels: Vec<&'a str>,
    subdirs: Vec<&'a str>,
    specs: Vec<&'a str>,
    ask: &'a Ask<'a>,
}

// The name that a spec is about.
fn name_of(spec: &str) -> &str {
    let behind = match spec.split_once("::") {
        Some((_, behind)) => behind,
        None => spec,
    };
    match behind.split_once(' ') {
        Some((name, _)) => name,
        None => behind,
    }
}

// Whether a spec matches a row of its name.
fn is_matched(spec: &str, row: &Row<'_>) -> bool {
    if let Some((channel, _)) = spec.split_once("::") {
        return channel == row.channel;
    }
    match spec.split_once(" >=") {
        Some((_, least)) => row.version >= least,
        None => true,
    }
}

impl<'a> Asked<'a> {
    // Whether the index of a slot lists a name.
    fn lists(&self, channel: &str, subdir: &str, name: &str) -> bool {
        for row in self.rows {
            if row.is_in(channel, subdir) && row.shard == name {
                return true;
            }
        }
        false
    }

    // Whether a channel lists a name in one of the subdirs.
    fn has(&self, channel: &str, name: &str) -> bool {
        for subdir in self.subdirs.iter() {
            if self.lists(channel, subdir, name) {
                return true;
            }
        }
        false
    }

    // Whether a name may be taken from a channel.
    fn opens(&self, channel: &str, name: &str) -> bool {
        if self.ask.priority == Priority::Flexible {
            return true;
        }
        for earlier in self.channels.iter() {
            if *earlier == channel {
                return true;
            }
            if self.has(earlier, name) {
                return false;
            }
        }
        true
    }

    // Whether a row's package stands as a newer file in its shard.
    fn has_twin(&self, row: &Row<'_>) -> bool {
        let Some(stem) = row.file.strip_suffix(".tar.bz2") else {
            return false;
        };
        for other in self.rows {
            if other.conda
                && other.is_in(row.channel, row.subdir)
                && other.shard == row.shard
                && other.name.eq_ignore_ascii_case(row.shard)
                && other.file.strip_suffix(".conda") == Some(stem)
            {
                return true;
            }
        }
        false
    }

    // Whether the specs let a row of a name be.
    fn is_asked(&self, row: &Row<'_>) -> bool {
        let mut is_root = false;
        for spec in self.specs.iter() {
            if name_of(spec) == row.shard {
                if is_matched(spec, row) {
                    return true;
                }
                is_root = true;
            }
        }
        !is_root
    }

    // Whether a row is given, once its name is reached.
    fn is_given(&self, row: &Row<'_>) -> bool {
        row.name.eq_ignore_ascii_case(row.shard)
            && self.opens(row.channel, row.shard)
            && (self.ask.format == Format::All || row.conda || !self.has_twin(row))
            && self.is_asked(row)
    }

    // The names that one round reaches from some names, and these.
    fn round(&self, alloc: Global, names: &[&'a str]) -> Result<Vec<&'a str>, AllocError> {
        let mut more: Vec<&'a str> = Vec::new(alloc);
        for name in names {
            more.push(name)?;
        }
        for row in self.rows {
            if self.is_in_slots(row) && names.contains(&row.shard) && self.is_given(row) {
                add_depends(alloc, row, &mut more)?;
            }
        }
        Ok(more)
    }

    // Whether a row stands in one of the slots.
    fn is_in_slots(&self, row: &Row<'_>) -> bool {
        self.channels.contains(&row.channel) && self.subdirs.contains(&row.subdir)
    }

    // The names that are reached.
    fn reached(&self, alloc: Global) -> Result<Vec<&'a str>, AllocError> {
        let mut names: Vec<&'a str> = Vec::new(alloc);
        for spec in self.specs.iter() {
            names.push(name_of(spec))?;
        }
        if self.ask.flat {
            return Ok(names);
        }
        for _ in 0..NAMES.len() {
            let count = names.len();
            names = self.round(alloc, names.as_slice())?;
            if names.len() == count {
                break;
            }
        }
        Ok(names)
    }

    // Adds the given rows of a slot and a name.
    fn put_rows(
        &self,
        channel: &str,
        subdir: &str,
        name: &str,
        text: &mut String,
    ) -> Result<(), AllocError> {
        for row in self.rows {
            if row.is_in(channel, subdir) && row.shard == name && self.is_given(row) {
                text.push_str(channel)?;
                text.push_str("/")?;
                text.push_str(subdir)?;
                text.push_str("/")?;
                text.push_str(row.file)?;
                text.push_str(" ")?;
            }
        }
        Ok(())
    }

    // Adds the given rows of the reached names of a slot.
    fn put_slot(
        &self,
        names: &[&'a str],
        channel: &str,
        subdir: &str,
        text: &mut String,
    ) -> Result<(), AllocError> {
        for name in NAMES {
            if names.contains(&name) {
                self.put_rows(channel, subdir, name, text)?;
            }
        }
        Ok(())
    }
}

// Adds the names that a row depends on, each once.
fn add_depends<'a>(
    alloc: Global,
    row: &Row<'a>,
    names: &mut Vec<&'a str>,
) -> Result<(), AllocError> {
    for text in pieces_of(alloc, row.depends)?.iter() {
        if let Some(name) = known(text) {
            if !names.contains(&name) {
                names.push(name)?;
            }
        }
    }
    Ok(())
}

// The name of a generator's text, in lower case.
fn known(text: &str) -> Option<&'static str> {
    let written = match text.split_once(' ') {
        Some((written, _)) => written,
        None => text,
    };
    for name in NAMES {
        if name.eq_ignore_ascii_case(written) {
            return Some(name);
        }
    }
    None
}

/// The files of the closure, each as `channel/subdir/file` with a blank behind it.
pub(crate) fn answer<'a>(
    alloc: Global,
    rows: &'a [Row<'a>],
    ask: &'a Ask<'a>,
) -> Result<String, AllocError> {
    let mut specs = Vec::new(alloc);
    for spec in ask.specs.split(';') {
        specs.push(spec)?;
    }
    let asked = Asked {
        rows,
        channels: pieces_of(alloc, ask.channels)?,
        subdirs: pieces_of(alloc, ask.subdirs)?,
        specs,
        ask,
    };
    let names = asked.reached(alloc)?;
    let mut text = String::new(alloc);
    for channel in asked.channels.iter() {
        for subdir in asked.subdirs.iter() {
            asked.put_slot(names.as_slice(), channel, subdir, &mut text)?;
        }
    }
    Ok(text)
}
