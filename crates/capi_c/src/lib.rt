// The page store as a static library for C. Each exported function has the clauses of the function of its name in
// `capi` and only calls it: a symbol for C is a function, so none share one. `include/pagestore.h` declares them, but
// for mending (docs/PORT.md).
#![tactic(auto)]

mod advice;
mod begin;
mod calls;
mod change;
mod failing;
mod mending;
mod readers;
mod slots;
mod space;
mod volumes;
