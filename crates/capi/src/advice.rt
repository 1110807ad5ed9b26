// What upkeep says, as numbers. `include/pagestore.h` declares it.
ghost use Rattle.std.specs.Prelude.{◌≡◌, IfOk, length};
ghost use Rattle.face.specs.Advice.{upkeep_face};
ghost use Rattle.face.specs.Found.{Gives};

use crate::found;
use face_numbers::advice::{refusal_in, upkeep_numbers};
use model::answer::Refusal;
use volume::heading;

fn advice(
    volume: &[u8],
    memory: &[u8],
    state: &[u32],
    frame: u32,
    old: &[u32],
) -> Result<[u32; 8], u32>
    ensures found { Gives result old.now (upkeep_face volume.now memory.now state.now frame old.now) }
    ensures long { IfOk result (λ _. length old.now ≡ 8) }
{
    if !heading::known(volume) {
        return Err(u32::from(Refusal::BadVolume));
    }
    if !numbers::fits(state) | (old.len() != 8) {
        return Err(u32::from(heading::bad_buffer(volume)));
    }
    let a = upkeep::advise(numbers::decode(state), volume, memory, frame);
    let no = refusal_in(a.upkeep);
    if no != 0 {
        return Err(no);
    }
    Ok(upkeep_numbers(a.upkeep, u32::from(a.payload[0])))
}

// Which call to make next, or that there is nothing to do, or the page that upkeep is stuck at: 0 or the refusal.
// Ruled out: a stuck page told as a call (tried); a refusal that wrote to the report; length and offset exchanged.
pub fn pagestore_upkeep(
    volume: &[u8],
    memory: &[u8],
    state: &[u32],
    frame: u32,
    report: &mut [u32],
) -> u32
    ensures answer { result
        ≡ (upkeep_face volume.now memory.now state.now frame report.old
        ).refusal }
    ensures report { report.new
        ≡ (upkeep_face volume.now memory.now state.now frame report.old
        ).numbers }
{
    found::put(advice(volume, memory, state, frame, report), report)
}
