//! Names of conda packages, and the name that a `depends` text is about (docs/FORMATS.md, "Names").
//!
//! Contracts see a `Name` as its bytes, which are a name in lower case (`specs/Name.antt`).
//! The layer above uses: two names are the same package exactly where their bytes are equal, and a
//! text that `dependency_name` gives is one that `Name::read` reads.
#![tactic(auto)]

mod dependency;
mod name;

pub use dependency::{dependency_name, name_len};
pub use name::{Name, NameRefusal, same_name};

#[cfg(test)]
mod tests;
