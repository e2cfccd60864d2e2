//! The words that several crates' contracts cite, and no code: bytes by name, places, readings and causes. All of it is in `specs/`.
#![tactic(auto)]
