// What mending says of a page, as numbers.
ghost use Rattle.std.specs.Prelude.{◌≡◌, IfOk, length};
ghost use Rattle.face.specs.Mending.{mend_face};
ghost use Rattle.face.specs.Found.{Gives};

use crate::found;
use face_numbers::mending::{mend_numbers, refusal_for};
use model::answer::Refusal;
use volume::heading;

fn advice(
    volume: &[u8],
    memory: &[u8],
    state: &[u32],
    frame: u32,
    page: u32,
    old: &[u32],
) -> Result<[u32; 8], u32>
    ensures found { Gives result old.now (mend_face volume.now memory.now state.now frame page old.now) }
    ensures long { IfOk result (λ _. length old.now ≡ 8) }
{
    if !heading::known(volume) {
        return Err(u32::from(Refusal::BadVolume));
    }
    if !numbers::fits(state) | (old.len() != 8) {
        return Err(u32::from(heading::bad_buffer(volume)));
    }
    let a = mend::advise(numbers::decode(state), volume, memory, frame, page);
    let no = refusal_for(a.mend);
    if no != 0 {
        return Err(no);
    }
    Ok(mend_numbers(a.mend, u32::from(a.payload[0])))
}

// Which call gives the page both of its starts again, or what it has without one: 0 or the refusal.
// Ruled out: a page with one start reported as one with both; a refusal that wrote to the report.
pub fn pagestore_mend(
    volume: &[u8],
    memory: &[u8],
    state: &[u32],
    frame: u32,
    page: u32,
    report: &mut [u32],
) -> u32
    ensures answer { result
        ≡ (mend_face volume.now memory.now state.now frame page report.old
        ).refusal }
    ensures report { report.new
        ≡ (mend_face volume.now memory.now state.now frame page report.old
        ).numbers }
{
    found::put(advice(volume, memory, state, frame, page, report), report)
}
