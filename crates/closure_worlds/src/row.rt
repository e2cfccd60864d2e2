//! The rows of a world. A world is a text with a row on each line: channel, subdir, the name under which
//! the index lists the row's shard, `conda` or `tar` for the map in which the file stands, file, name,
//! version, and what it depends on with `,` between, or `-`.

use std::alloc::{AllocError, Global};

/// A row of a world.
#[derive(Clone, Copy)]
pub(crate) struct Row<'a> {
    pub(crate) channel: &'a str,
    pub(crate) subdir: &'a str,
    pub(crate) shard: &'a str,
    pub(crate) conda: bool,
    pub(crate) file: &'a str,
    pub(crate) name: &'a str,
    pub(crate) version: &'a str,
    pub(crate) depends: &'a str,
}

impl<'a> Row<'a> {
    fn read(line: &'a str) -> Option<Row<'a>> {
        let (channel, rest) = line.split_once(' ')?;
        let (subdir, rest) = rest.split_once(' ')?;
        let (shard, rest) = rest.split_once(' ')?;
        let (map, rest) = rest.split_once(' ')?;
        let (file, rest) = rest.split_once(' ')?;
        let (name, rest) = rest.split_once(' ')?;
        let (version, depends) = rest.split_once(' ')?;
        Some(Row {
            channel,
            subdir,
            shard,
            conda: map == "conda",
            file,
            name,
            version,
            depends,
        })
    }

    /// Whether the row stands in a slot.
    pub(crate) fn is_in(&self, channel: &str, subdir: &str) -> bool {
        self.channel == channel && self.subdir == subdir
    }
}

/// The rows of a world.
pub(crate) fn rows_of(alloc: Global, world: &str) -> Result<Vec<Row<'_>>, AllocError> {
    let mut rows = Vec::new(alloc);
    for line in world.lines() {
        if let Some(row) = Row::read(line) {
            rows.push(row)?;
        }
    }
    Ok(rows)
}

/// The pieces of a list with `,` between, and none of `-`.
pub(crate) fn pieces_of(alloc: Global, list: &str) -> Result<Vec<&str>, AllocError> {
    let mut pieces = Vec::new(alloc);
    if list != "-" {
        for piece in list.split(',') {
            pieces.push(piece)?;
        }
    }
    Ok(pieces)
}
