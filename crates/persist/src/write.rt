// Write: stores a dirty page's image and leaves a note of it pending.
ghost use Rattle.std.specs.Prelude.{◌≡◌, []};
ghost use Rattle.model.specs.Refused.{error_number};
ghost use Rattle.model.specs.Tables.{first_of};
ghost use Rattle.model.specs.Refusals.{state_rows, write_rows, write_tail};
ghost use Rattle.model.specs.Outcome.{reply_of, volume_after};
ghost use Rattle.model.specs.Calls.{write_of};

use crate::{image, noting};
use model::answer::{Refusal, Reply};
use model::state::State;
use state::{frames, next, reply};
use volume::{Volume, heading, place};

// The refusal of Write's own rows, for the frame that holds the page, or 0, and the page lsn in it.
fn own(s: State, v: &Volume<'_>, page: u32, f: u32, lsn: u32) -> Result<(), Refusal>
    ensures { error_number result ≡ first_of (write_tail v.now.geometry v.now.bytes.now s page f lsn) }
{
    if !((1 <= page) & (page <= v.geometry.pages)) {
        return Err(Refusal::NoSuchPage);
    }
    if f == 0 {
        return Err(Refusal::NoFrame);
    }
    if !frames::frame(s, f).dirty {
        return Ok(());
    }
    noting::refusal(s, v, lsn)
}

// The refusal, the lowest that holds; `checked` is that of the rows 1 and 2.
fn refusal(
    s: State,
    checked: Result<(), Refusal>,
    volume: &[u8],
    memory: &[u8],
    page: u32,
) -> Result<(), Refusal>
    requires { error_number checked ≡ first_of (state_rows volume.now memory.now s []) }
    ensures { error_number result ≡ first_of (write_rows volume.now memory.now s page) }
{
    checked?;
    let f = frames::holder(s, page);
    own(s, &Volume::of(volume), page, f, image::lsn(memory, f))
}

// Stores a dirty page's image; the page is clean, a note of it is pending. Nothing on a clean page.
// Ruled out: a note of another page lsn than the image's; 13 to 15 on a clean page.
pub fn write(
    s: State,
    checked: Result<(), Refusal>,
    volume: &mut [u8],
    memory: &[u8],
    page: u32,
) -> Reply
    requires { error_number checked ≡ first_of (state_rows volume.old memory.now s []) }
    ensures reply { result ≡ reply_of (write_of volume.old memory.now s page) }
    ensures volume { volume.new
        ≡ volume_after volume.old (write_of volume.old memory.now s page).stored }
{
    if let Err(no) = refusal(s, checked, volume, memory, page) {
        return reply::refused(s, no);
    }
    let f = frames::holder(s, page);
    let dirty = frames::frame(s, f).dirty;
    if !dirty {
        return reply::nothing(s);
    }
    let g = heading::geometry(volume);
    let lsn = image::lsn(memory, f);
    image::store(volume, memory, g, place::page_at(g, page), f);
    reply::done(next::written(s, page, f, lsn))
}
