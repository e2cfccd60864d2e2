//! What a server gives of the stored files: the two served kinds, and nothing else.
//!
//! Contracts see an answer as its status, its body and the size of the file (`specs/Answer`), and a
//! store as its files, where it tells them.
#![tactic(auto)]

mod serving;

pub use serving::{Served, answer};

#[cfg(test)]
mod tests;
