//! The words behind the name of a yardstick.

use anyhow::Context;

/// At most two words.
#[derive(Drop)]
pub(crate) struct Words {
    pub(crate) first: Option<String>,
    pub(crate) second: Option<String>,
}

impl Words {
    /// The first word.
    pub(crate) fn first(&self) -> Option<&str> {
        match &self.first {
            Some(word) => Some(word.as_str()),
            None => None,
        }
    }

    /// The number of turns that the first word is, 1 where there is none.
    pub(crate) fn turns(&self) -> anyhow::Result<u32> {
        turns_in(&self.first)
    }

    /// The number of turns that the second word is, 1 where there is none.
    pub(crate) fn turns_behind(&self) -> anyhow::Result<u32> {
        turns_in(&self.second)
    }
}

fn turns_in(word: &Option<String>) -> anyhow::Result<u32> {
    match word {
        Some(word) => word
            .as_str()
            .parse::<u32>()
            .context("TURNS must be a number"),
        None => Ok(1),
    }
}
