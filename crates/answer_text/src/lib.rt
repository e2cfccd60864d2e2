//! The printed lines of records and of answers.
//!
//! Contracts see a vector as the bytes that it holds; `specs/Text` says how a text is shown, and which
//! line a row has, and `specs/Answers` which lines an answer has. The program's commands use it
//! (docs/FORMATS.md, "Printed texts").
#![tactic(auto)]

mod answer;
mod line;
mod text;

pub use answer::{put_answer, put_refused};
pub use line::put_record_line;
pub use text::put_shown;
