// What a layout costs, and which of two is better.
#![tactic(auto)]

pub mod laws;
pub mod price;
pub mod row;
