// The rows and columns of the page recovery index.
#![tactic(auto)]

pub mod columns;
pub mod entries;
