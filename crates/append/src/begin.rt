// Begin: the first format of a blank page.
ghost use Rattle.std.specs.Prelude.{◌≡◌, List, [], ℕ, ◌<◌, length, replicate};
ghost use Rattle.model.specs.Refused.{error_number};
ghost use Rattle.model.specs.Tables.{first_of};
ghost use Rattle.model.specs.Item.{frame_image};
ghost use Rattle.model.specs.Refusals.{state_rows, begin_rows, begin_tail};
ghost use Rattle.model.specs.Outcome.{reply_of};
ghost use Rattle.model.specs.Calls.{begin_of};

use crate::{limits, pending};
use item::image;
use model::answer::{Refusal, Reply};
use model::change::Change;
use model::state::State;
use state::{entries, frames, next, reply};
use volume::{Volume, memory};

// The refusal of Begin's own rows, for a memory of so many frames.
fn own(s: State, v: &Volume<'_>, count: usize, page: u32, frame: u32) -> Result<(), Refusal>
    ensures { error_number result ≡ first_of (begin_tail v.now.geometry v.now.bytes.now count s page frame) }
{
    if !((1 <= page) & (page <= v.geometry.pages)) {
        return Err(Refusal::NoSuchPage);
    }
    if !((1 <= frame) & (frame as usize <= count)) {
        return Err(Refusal::NoSuchFrame);
    }
    if !entries::blank(s, page) {
        return Err(Refusal::PageInUse);
    }
    if frames::blocked(s, frame) {
        return Err(Refusal::ChangePending);
    }
    limits::refusal(s, v)
}

// The refusal, the lowest that holds; `checked` is that of the rows 1 and 2, size is the memory's.
fn refusal(
    s: State,
    checked: Result<(), Refusal>,
    volume: &[u8],
    size: usize,
    page: u32,
    frame: u32,
) -> Result<(), Refusal>
    requires { (m : List ℕ) → length m ≡ size → error_number checked ≡ first_of (state_rows volume.now m s []) }
    ensures { (m : List ℕ) → length m ≡ size → error_number result ≡ first_of (begin_rows volume.now m s page frame) }
{
    checked?;
    own(s, &Volume::of(volume), memory::frames(size), page, frame)
}

// Makes a frame's bytes the image of a page of which every body byte is the fill.
fn format(x: &mut [u8], page: u32, lsn: u32, fill: u8)
    requires { (length x.old ≡ 256) × (page < 65536) }
    ensures { x.new ≡ frame_image page lsn (replicate 244 fill) }
{
    x.fill(fill);
    image::build(x, page, lsn);
}

// Begins a blank page in a frame: its format is pending, the frame is dirty, and a page in it whose changes are durable
// leaves the frame. Ruled out: 12 while the log has room; a page with a pending change that leaves its frame; a refusal
// that clears the frame.
pub fn begin(
    s: State,
    checked: Result<(), Refusal>,
    volume: &[u8],
    memory: &mut [u8],
    page: u32,
    frame: u32,
    fill: u8,
) -> Reply
    requires { error_number checked ≡ first_of (state_rows volume.now memory.old s []) }
    ensures reply { result ≡ reply_of (begin_of volume.now memory.old s page frame fill) }
    ensures memory { memory.new ≡ (begin_of volume.now memory.old s page frame fill).memory }
{
    if let Err(no) = refusal(s, checked, volume, memory.len(), page, frame) {
        return reply::refused(s, no);
    }
    let lsn = pending::pend(s, memory, page, Change::Format { fill }, [0; 44]);
    let at = memory::frame_at(frame);
    let end = at + 256;
    format(&mut memory[at..end], page, lsn, fill);
    reply::done(next::appended(s, page, frame))
}
