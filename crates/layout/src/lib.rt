// The best layout of a document: found from the right, written from the left.
#![tactic(auto)]

pub mod entry;
pub mod laid;
mod plan;
pub mod refusal;
pub mod reply;
mod search;
mod searching;
mod tree;
pub mod watch;
pub mod workspace;
mod writer;
mod writing;
