// Documents from brackets, separators and words, by rules given in a row.
#![tactic(auto)]

pub mod call;
pub mod calling;
mod encoder;
mod encoding;
pub mod error;
pub mod laws;
mod lexer;
mod marks;
mod reader;
pub mod rule;
