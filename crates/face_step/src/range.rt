// Where a call stores if it does, found before the call is made: offset and length of the bytes.
ghost use Rattle.std.specs.Prelude.{◌≡◌, List, ℕ, ◌%◌, ◌≤◌};
ghost use Rattle.model.specs.Geometry.{geometry_of};
ghost use Rattle.face_step.specs.Targets.{target, old_target, range_of};

use convert::images;
use model::command::Command;
use model::geometry::Geometry;
use model::state::State;
use volume::{Volume, heading, place};

// Offset and length of a part of the volume.
#[derive(Clone, Copy)]
pub struct Range {
    pub at: u32,
    pub size: u32,
}

// Of a call that stores nothing.
const NONE: Range = Range { at: 0, size: 0 };

fn cut(at: usize, size: u32) -> Range
    ensures { result ≡ record { at = at % 4294967296; size = size } }
{
    Range {
        at: (at % 4294967296) as u32,
        size,
    }
}

// A number of items before, in turns; with no slots as it is.
fn turned(before: u32, slots: u32) -> usize
    ensures { (result ≡ before % slots) × (result ≤ 4294967295) }
{
    if slots == 0 {
        return before as usize;
    }
    (before % slots) as usize
}

fn old_range(volume: &[u8], g: Geometry, s: State) -> Range
    requires { g ≡ geometry_of volume.now }
    ensures { result ≡ range_of g (old_target volume.now s) }
{
    let Ok(v) = Volume::open(volume) else {
        return NONE;
    };
    match images::first_old(&v, s.index) {
        Some(i) => cut(images::image_at(g, i), 256),
        None => NONE,
    }
}

// Where the call stores, if it does.
pub fn aim(volume: &[u8], s: State, command: Command) -> Range
    ensures { (p : List ℕ)
        → result ≡ range_of (geometry_of volume.now) (target (command, p) volume.now s) }
{
    let g = heading::geometry(volume);
    match command {
        Command::Begin { .. }
        | Command::Load { .. }
        | Command::Change { .. }
        | Command::Release { .. } => NONE,
        Command::Force => {
            let before = 64 * turned(s.durable, g.records);
            cut(
                16 + 256 * (g.pages as usize) + 256 * (g.slots as usize) + before,
                64,
            )
        }
        Command::Write { page } => cut(place::page_at(g, page), 256),
        Command::Backup { slot, .. } => cut(place::slot_at(g, slot), 256),
        Command::Note => {
            let before = 16 * turned(s.notes, g.notes);
            let records = 64 * (g.records as usize);
            cut(
                20 + 256 * (g.pages as usize) + 256 * (g.slots as usize) + records + before,
                16,
            )
        }
        Command::StartCarry | Command::FinishCarry => Range { at: 0, size: 4 },
        Command::Restamp => old_range(volume, g, s),
    }
}
