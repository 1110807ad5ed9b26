// The page store for C: a function for each that is exported, by an equation for all that it leaves. The crate `capi_c`
// exports them.
#![tactic(auto)]

pub mod advice;
pub mod begin;
pub mod calls;
pub mod change;
pub mod failing;
mod found;
pub mod mending;
pub mod readers;
pub mod slots;
pub mod space;
pub mod volumes;
