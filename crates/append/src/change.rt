// Change: alters a page that a frame holds.
ghost use Rattle.std.specs.Prelude.{◌≡◌, true, List, [], ℕ, length};
ghost use Rattle.model.specs.Refused.{error_number};
ghost use Rattle.model.specs.Tables.{first_of};
ghost use Rattle.model.specs.Change.{fits, apply_change};
ghost use Rattle.model.specs.Item.{image_body};
ghost use Rattle.model.specs.Refusals.{state_rows, change_rows, change_tail};
ghost use Rattle.model.specs.Outcome.{reply_of};
ghost use Rattle.model.specs.Effects.{changed_image};
ghost use Rattle.model.specs.Calls.{change_call};

use crate::{limits, pending};
use codec::field;
use model::answer::{Refusal, Reply};
use model::change::Change;
use model::state::State;
use state::{frames, next, reply};
use volume::{Volume, memory};

// The refusal of Change's own rows.
fn own(s: State, v: &Volume<'_>, page: u32, c: Change) -> Result<(), Refusal>
    ensures { error_number result ≡ first_of (change_tail v.now.geometry v.now.bytes.now s page c) }
{
    if !((1 <= page) & (page <= v.geometry.pages)) {
        return Err(Refusal::NoSuchPage);
    }
    if !item::change::obeys(c) {
        return Err(Refusal::BadChange);
    }
    if !frames::held(s, page) {
        return Err(Refusal::NoFrame);
    }
    limits::refusal(s, v)
}

// The refusal, the lowest that holds; `checked` is that of the rows 1 and 2, size is the memory's.
fn refusal(
    s: State,
    checked: Result<(), Refusal>,
    volume: &[u8],
    size: usize,
    page: u32,
    c: Change,
) -> Result<(), Refusal>
    requires { (m : List ℕ) → length m ≡ size → error_number checked ≡ first_of (state_rows volume.now m s []) }
    ensures { (m : List ℕ) → length m ≡ size → error_number result ≡ first_of (change_rows volume.now m s page c) }
{
    checked?;
    own(s, &Volume::of(volume), page, c)
}

// Makes a change in a frame's bytes: its number and the body. The page number, the zeros and the checksum's bytes stay.
fn alter(x: &mut [u8], lsn: u32, c: Change, payload: [u8; 44])
    requires { (length x.old ≡ 256) × (fits c ≡ true) }
    ensures { x.new ≡ changed_image x.old lsn (apply_change c payload (image_body x.old)) }
{
    field::put_u32(x, 4, lsn);
    item::change::apply(c, &payload, &mut x[8..252]);
}

// Changes a page that a frame holds: the record is pending, the frame is dirty.
// Ruled out: a page changed that no frame holds; a record that skips the page's pending ones.
pub fn change(
    s: State,
    checked: Result<(), Refusal>,
    volume: &[u8],
    memory: &mut [u8],
    page: u32,
    change: Change,
    payload: [u8; 44],
) -> Reply
    requires { error_number checked ≡ first_of (state_rows volume.now memory.old s []) }
    ensures reply { result ≡ reply_of (change_call volume.now memory.old s page change payload) }
    ensures memory { memory.new ≡ (change_call volume.now memory.old s page change payload).memory }
{
    if let Err(no) = refusal(s, checked, volume, memory.len(), page, change) {
        return reply::refused(s, no);
    }
    let lsn = pending::pend(s, memory, page, change, payload);
    let f = frames::holder(s, page);
    let at = memory::frame_at(f);
    let end = at + 256;
    alter(&mut memory[at..end], lsn, change, payload);
    reply::done(next::appended(s, page, f))
}
