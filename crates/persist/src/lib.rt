// Write, Backup and Note: the calls that store a page's image or a note.
#![tactic(auto)]

pub mod backup;
mod image;
pub mod note;
mod noting;
pub mod write;
