// Three of the four checks of `checklist`, each played from a volume made anew; each says whether it passed. Nothing is
// proved of them but that they are safe and end.
#![tactic(auto)]

pub mod both;
pub mod lost;
pub mod thread;
