// Load: brings a page into a frame, repaired. The module `release` lets it go again; `probe` tells what Load would
// answer.
#![tactic(auto)]

pub mod probe;
pub mod release;

ghost use Rattle.std.specs.Prelude.{◌≡◌, List, [], ℕ, ◌+◌, ◌≤◌, length, IfOk};
ghost use Rattle.load.specs.Rows.{Finds};
ghost use Rattle.model.specs.Refusals.{state_rows, load_tail, load_rows};
ghost use Rattle.model.specs.Refused.{error_number};
ghost use Rattle.model.specs.Tables.{first_of};
ghost use Rattle.model.specs.Bytes.{splice};
ghost use Rattle.model.specs.Repair.{repair_of, rebuilt};
ghost use Rattle.model.specs.State.{frame_at};
ghost use Rattle.model.specs.Outcome.{reply_of};
ghost use Rattle.model.specs.Calls.{load_of};
ghost use Rattle.repair.specs.Walked.{view_for, walked_for};

use log_scan::Measured;
use model::answer::{Answer, Class, Refusal, Repair, Reply, Stop};
use model::geometry::Geometry;
use model::state::State;
use repair::walk::Walked;
use repair::{Target, answer, rebuild, walk};
use state::{entries, frames, next};
use volume::{Volume, memory};

// The rows of Load's own before the walk, for a memory of so many frames.
fn own(g: Geometry, count: usize, s: State, page: u32, frame: u32) -> Result<(), Refusal>
    ensures { error_number result ≡ first_of (load_tail g count s page frame) }
{
    if !((1 <= page) & (page <= g.pages)) {
        return Err(Refusal::NoSuchPage);
    }
    if !((1 <= frame) & (frame as usize <= count)) {
        return Err(Refusal::NoSuchFrame);
    }
    if entries::blank(s, page) {
        return Err(Refusal::BlankPage);
    }
    if frames::held(s, page) {
        return Err(Refusal::PageInUse);
    }
    if frames::blocked(s, frame) {
        return Err(Refusal::ChangePending);
    }
    Ok(())
}

// The page as it is to be repaired, and its walk, or the refusal; checked is that of the rows 1 and 2, size is the
// memory's.
fn find<'a>(
    s: State,
    checked: Result<(), Refusal>,
    volume: &'a [u8],
    size: usize,
    page: u32,
    frame: u32,
) -> Result<(Target<'a>, Walked), Refusal>
    requires { (m : List ℕ) → length m ≡ size → error_number checked ≡ first_of (state_rows volume.now m s []) }
    ensures refusal { (m : List ℕ) → length m ≡ size
        → error_number result ≡ first_of (load_rows volume.now m s page frame) }
    ensures found { IfOk result (λ f. Finds volume.now s page f.0 f.1) }
{
    checked?;
    let v = Volume::of(volume);
    own(v.geometry, memory::frames(size), s, page, frame)?;
    let t = Target {
        volume: v,
        first: log_scan::first(&Measured::of(&v), s.durable),
        entry: entries::entry(s, page),
        page,
    };
    let walked = walk::walk(&t);
    match walked.stop {
        Stop::Broken => Err(Refusal::BadRecord),
        Stop::Below => Err(Refusal::PageLost),
        _ => Ok((t, walked)),
    }
}

// Rebuilds the page in the frame's bytes, and answers.
fn restore(t: &Target<'_>, w: Walked, memory: &mut [u8], frame: u32) -> Repair
    requires { (w ≡ walked_for t.now) × (frame_at frame + 256 ≤ length memory.old) }
    ensures answer { result ≡ repair_of t.now.volume.geometry t.now.page (view_for t.now) }
    ensures memory { memory.new
        ≡ splice memory.old (frame_at frame)
        (rebuilt t.now.volume.geometry t.now.page (view_for t.now)) }
{
    let at = memory::frame_at(frame);
    let end = at + 256;
    rebuild::rebuild(t, w, &mut memory[at..end]);
    answer::answer(w)
}

// Loads a page; a page in the frame whose changes are durable makes way.
// Ruled out: a page that was repaired and is left clean (tried); the page put into another frame than the one named
// (tried); every page blank (tried); every call refused (tried); 19 or 23 where the walk finds a start.
pub fn load(
    s: State,
    checked: Result<(), Refusal>,
    volume: &[u8],
    memory: &mut [u8],
    page: u32,
    frame: u32,
) -> Reply
    requires { error_number checked ≡ first_of (state_rows volume.now memory.old s []) }
    ensures reply { result ≡ reply_of (load_of volume.now memory.old s page frame) }
    ensures memory { memory.new
        ≡ (load_of volume.now memory.old s page frame).memory }
{
    let (t, walked) = match find(s, checked, volume, memory.len(), page, frame) {
        Ok(found) => found,
        Err(refusal) => {
            return Reply {
                answer: Answer::from(refusal),
                state: s,
            };
        }
    };
    let repair = restore(&t, walked, memory, frame);
    let dirty = repair.class != Class::Good;
    Reply {
        answer: Answer::Repaired(repair),
        state: next::loaded(s, page, frame, dirty),
    }
}
