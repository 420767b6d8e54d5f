// Documents as bytes and as rows of nodes.
#![tactic(auto)]

pub mod laws;
pub mod node;
pub mod nodes;
pub mod reader;
pub mod reserved;
pub mod tag;
