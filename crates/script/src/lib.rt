// A script's cells, the session that they work on, the cells that set it up, and the hashes that are printed of it. It
// holds the proved store against an independent implementation, so nothing is proved of it but that it is safe and
// ends.
#![tactic(auto)]

pub mod cell;
pub mod hash;
mod numbers;
pub mod session;
pub mod setup;
