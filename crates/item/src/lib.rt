// The three items of a volume, read, judged and built: page image, log record and note; and a change of a page's body.
#![tactic(auto)]

pub mod change;
pub mod image;
pub mod note;
pub mod record;
