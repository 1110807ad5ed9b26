// The rows 13 to 15, which Write and Backup share: whether a note of an image may be left pending.
ghost use Rattle.std.specs.Prelude.{◌≡◌, true, []};
ghost use Rattle.model.specs.Refusals.{note_tail};
ghost use Rattle.model.specs.Refused.{error_number};
ghost use Rattle.model.specs.Tables.{first_of};

use model::answer::Refusal;
use model::state::State;
use room::notes;
use volume::Volume;

// The refusal of a call that leaves a note pending, of an image with this page lsn.
pub fn refusal(s: State, v: &Volume<'_>, lsn: u32) -> Result<(), Refusal>
    ensures { error_number result ≡ first_of (note_tail v.now.geometry v.now.bytes.now s true lsn []) }
{
    if s.note.is_some() {
        return Err(Refusal::NotePending);
    }
    if notes::full(s, v) {
        return Err(Refusal::NotesFull);
    }
    if s.durable < lsn {
        return Err(Refusal::NotDurable);
    }
    Ok(())
}
