// How many more records and notes there is room for in a volume.
#![tactic(auto)]

ghost use Rattle.std.specs.Prelude.{◌≡◌, IfOk};
ghost use Rattle.index.specs.Scanned.{scan_refusal};
ghost use Rattle.model.specs.Refused.{error_number};
ghost use Rattle.reports.specs.Room.{room_of};

// Log and notes have a search each: one over a closure would have to say that a call needs the answers of those before
// it, by which the state's count stays a number.
pub mod log;
pub mod notes;

use model::answer::Refusal;
use reports::reading::{Room, Space};
use state::next;
use volume::Volume;

// Of a refused call.
const NONE: Space = Space { count: 0, page: 0 };

// The room of a volume that restarts.
fn measured(volume: &[u8]) -> Result<Room, Refusal>
    ensures refusal { error_number result ≡ scan_refusal volume.now }
    ensures room { IfOk result (λ r. r ≡ room_of volume.now) }
{
    let s = next::resumed(index::scan(volume)?);
    let v = Volume::of(volume);
    Ok(Room {
        refusal: 0,
        log: log::left(s, &v),
        notes: notes::left(s, &v),
    })
}

// The room of a volume: how many more records and notes it takes, and the pages in the way then. Ruled out: a whole
// turn told where a page stands in the way (tried); the page of the newest note told for the oldest's (tried); a
// refusal told as 0.
pub fn left(volume: &[u8]) -> Room
    ensures { result ≡ room_of volume.now }
{
    match measured(volume) {
        Ok(room) => room,
        Err(refusal) => Room {
            refusal: u32::from(refusal),
            log: NONE,
            notes: NONE,
        },
    }
}
