// Begin for C: a fill that is no byte is judged in its place.
ghost use Rattle.std.specs.Prelude.{◌≡◌, List, ℕ, length, cond, not};
ghost use Rattle.model.specs.Tables.{within};
ghost use Rattle.model.specs.Geometry.{geometry_of};
ghost use Rattle.model.specs.State.{frame_count};
ghost use Rattle.model.specs.Refused.{refusal_number};
ghost use Rattle.face.specs.Face.{faced};
ghost use Rattle.face.specs.Arguments.{misfilled_of, begin_face};

use face_step::step;
use model::answer::Refusal;
use model::command::Command;
use volume::{heading, memory};

// The refusal by page and frame, or else by the fill.
fn own(volume: &[u8], size: usize, page: u32, frame: u32) -> Refusal
    ensures { refusal_number result
        ≡ cond (not (within (geometry_of volume.now).pages page)) 3 (cond (not (within (frame_count size) frame)) 4 6) }
{
    let pages = heading::geometry(volume).pages;
    if !((1 <= page) & (page <= pages)) {
        return Refusal::NoSuchPage;
    }
    if !((1 <= frame) & (frame as usize <= memory::frames(size))) {
        return Refusal::NoSuchFrame;
    }
    Refusal::BadChange
}

// The refusal of a Begin whose fill is above 255; size is the memory's, numbers the report's.
fn misfilled(
    volume: &[u8],
    size: usize,
    state: &[u32],
    numbers: usize,
    page: u32,
    frame: u32,
) -> Refusal
    ensures { (m report : List ℕ) → length m ≡ size → length report ≡ numbers
        → refusal_number result ≡ misfilled_of page frame volume.now m state.now report }
{
    if !heading::known(volume) {
        return Refusal::BadVolume;
    }
    if !numbers::fits(state) | (numbers != 5) {
        return heading::bad_buffer(volume);
    }
    let s = numbers::decode(state);
    match state::refusal::refusal(s, volume, size) {
        Err(refused) => refused,
        Ok(()) => own(volume, size, page, frame),
    }
}

pub fn pagestore_begin(
    volume: &mut [u8],
    memory: &mut [u8],
    state: &mut [u32],
    page: u32,
    frame: u32,
    fill: u32,
    report: &mut [u32],
) -> u32
    ensures { faced result state.new report.new memory.new volume.new
        ≡ begin_face page frame fill volume.old memory.old state.old
        report.old }
{
    if fill <= 255 {
        let fill = fill as u8;
        let command = Command::Begin { page, frame, fill };
        return step::step(volume, memory, state, command, [0u8; 44], step::ANY, report);
    }
    let refusal = misfilled(volume, memory.len(), state, report.len(), page, frame);
    u32::from(refusal)
}
