// What the functions for C report of a slot, of upkeep and of mending, each as eight numbers.
#![tactic(auto)]

pub mod advice;
pub mod mending;
pub mod slots;
