// The room of a volume as numbers. `include/pagestore.h` declares it.
ghost use Rattle.std.specs.Prelude.{◌≡◌, IfOk, length};
ghost use Rattle.face.specs.Room.{tell_room};
ghost use Rattle.face.specs.Found.{Gives};

use crate::found;
use model::answer::Refusal;
use volume::heading;

fn room(volume: &[u8], old: &[u32]) -> Result<[u32; 4], u32>
    ensures found { Gives result old.now (tell_room volume.now old.now) }
    ensures long { IfOk result (λ _. length old.now ≡ 4) }
{
    if !heading::known(volume) {
        return Err(u32::from(Refusal::BadVolume));
    }
    if old.len() != 4 {
        return Err(u32::from(heading::bad_buffer(volume)));
    }
    let r = room_report::left(volume);
    if r.refusal != 0 {
        return Err(r.refusal);
    }
    Ok([r.log.count, r.log.page, r.notes.count, r.notes.page])
}

// How many more log records and notes the volume takes, and the pages in the way then: 0 or the refusal.
// Ruled out: a refusal that wrote to the report; the room of the log told for that of the notes.
pub fn pagestore_room(volume: &[u8], report: &mut [u32]) -> u32
    ensures answer { result ≡ (tell_room volume.now report.old).refusal }
    ensures report { report.new ≡ (tell_room volume.now report.old).numbers }
{
    found::put(room(volume, report), report)
}
