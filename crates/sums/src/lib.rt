// The two sums of an item: over words, and over bytes. What each gives is defined in `model`.
// Loops that go on by a term or a block from sums so far are `while`: the place where one stops is part of its result.
#![tactic(auto)]

mod byte_lanes;
pub mod byte_sum;
pub mod check;
pub mod checksum;
mod lanes;
mod partial;
pub mod products;
mod terms;
mod word_lanes;
