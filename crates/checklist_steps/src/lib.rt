// What the checks of `checklist` are played with: the disk's part, one step each of the store's calls with its printed
// line, the text of a page, and the verdict on it.
//
// No verdict rests on the public functions without a contract, nor on `steps::worded` and `text::lines`: `text::line`,
// `show` and `held` only print, and what `worded`, `newest` and `lines` give is only printed.
#![tactic(auto)]

pub mod disk;
pub mod printed;
pub mod steps;
pub mod text;
pub mod verdict;
