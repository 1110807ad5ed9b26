// A page's repair: the class of its own image, the chain walk, the rebuilt image and the answer.
#![tactic(auto)]

ghost use Rattle.std.specs.Prelude.{◌+◌, ◌≤◌, ◌<◌};

pub mod answer;
pub mod class;
pub mod rebuild;
pub mod walk;

use model::state::Entry;
use volume::Volume;

// A page that is repaired: its volume, the run start, its entry of the index within the volume's counts, and its
// number.
#[derive(Clone, Copy)]
pub struct Target<'a> {
    pub volume: Volume<'a>,
    pub first: u64,
    pub entry: Entry,
    pub page: u32,
    pub ghost low: { 1 ≤ page },
    pub ghost high: { page ≤ volume.geometry.pages },
    pub ghost durable: { entry.durable < first + volume.geometry.records },
    pub ghost slot: { entry.slot ≤ volume.geometry.slots },
}
