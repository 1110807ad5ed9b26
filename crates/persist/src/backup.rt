// Backup: stores a page's image in a backup slot and leaves a note of it pending.
ghost use Rattle.std.specs.Prelude.{◌≡◌, []};
ghost use Rattle.model.specs.Refused.{error_number};
ghost use Rattle.model.specs.Tables.{first_of};
ghost use Rattle.model.specs.Refusals.{state_rows, backup_rows, backup_tail};
ghost use Rattle.model.specs.Outcome.{reply_of, volume_after};
ghost use Rattle.model.specs.Calls.{backup_of};

use crate::{image, noting};
use index_rows::entries;
use model::answer::{Refusal, Reply};
use model::state::State;
use state::{frames, next, reply};
use volume::{Volume, heading, place};

// The refusal of Backup's own rows, for the frame that holds the page, or 0, and the page lsn in it.
fn own(s: State, v: &Volume<'_>, page: u32, slot: u32, f: u32, lsn: u32) -> Result<(), Refusal>
    ensures { error_number result ≡ first_of (backup_tail v.now.geometry v.now.bytes.now s page slot f lsn) }
{
    if !((1 <= page) & (page <= v.geometry.pages)) {
        return Err(Refusal::NoSuchPage);
    }
    if !((1 <= slot) & (slot <= v.geometry.slots)) {
        return Err(Refusal::NoSuchSlot);
    }
    if f == 0 {
        return Err(Refusal::NoFrame);
    }
    noting::refusal(s, v, lsn)?;
    if entries::used(s.index, slot) {
        return Err(Refusal::SlotInUse);
    }
    Ok(())
}

// The refusal, the lowest that holds; `checked` is that of the rows 1 and 2.
fn refusal(
    s: State,
    checked: Result<(), Refusal>,
    volume: &[u8],
    memory: &[u8],
    page: u32,
    slot: u32,
) -> Result<(), Refusal>
    requires { error_number checked ≡ first_of (state_rows volume.now memory.now s []) }
    ensures { error_number result ≡ first_of (backup_rows volume.now memory.now s page slot) }
{
    checked?;
    let f = frames::holder(s, page);
    own(s, &Volume::of(volume), page, slot, f, image::lsn(memory, f))
}

// Stores the image of a page that a frame holds in the slot; a note of it is pending.
// Ruled out: a slot overwritten that the index names; a note of another slot than the image's.
pub fn backup(
    s: State,
    checked: Result<(), Refusal>,
    volume: &mut [u8],
    memory: &[u8],
    page: u32,
    slot: u32,
) -> Reply
    requires { error_number checked ≡ first_of (state_rows volume.old memory.now s []) }
    ensures reply { result ≡ reply_of (backup_of volume.old memory.now s page slot) }
    ensures volume { volume.new
        ≡ volume_after volume.old (backup_of volume.old
        memory.now s page slot).stored }
{
    if let Err(no) = refusal(s, checked, volume, memory, page, slot) {
        return reply::refused(s, no);
    }
    let f = frames::holder(s, page);
    let g = heading::geometry(volume);
    let lsn = image::lsn(memory, f);
    image::store(volume, memory, g, place::slot_at(g, slot), f);
    reply::done(next::backed_up(s, page, slot, lsn))
}
