// Note: stores the pending note; only then does the index change.
ghost use Rattle.std.specs.Prelude.{◌≡◌, []};
ghost use Rattle.model.specs.Refused.{error_number};
ghost use Rattle.model.specs.Tables.{first_of};
ghost use Rattle.model.specs.Refusals.{state_rows};
ghost use Rattle.model.specs.Outcome.{reply_of, volume_after};
ghost use Rattle.model.specs.Calls.{note_call};

use model::answer::{Refusal, Reply};
use model::state::State;
use state::{next, reply};
use volume::{heading, place};

// Stores the pending note in its number's slot and enters it in the index. Nothing where none is pending. Ruled out: a
// note stored in another number's slot; Nothing while a note is pending; an index with another number than the note's.
pub fn note(s: State, checked: Result<(), Refusal>, volume: &mut [u8], memory: &[u8]) -> Reply
    requires { error_number checked ≡ first_of (state_rows volume.old memory.now s []) }
    ensures reply { result ≡ reply_of (note_call volume.old memory.now s) }
    ensures volume { volume.new
        ≡ volume_after volume.old (note_call volume.old memory.now s).stored }
{
    if let Err(no) = checked {
        return reply::refused(s, no);
    }
    let Some(n) = s.note else {
        return reply::nothing(s);
    };
    let g = heading::geometry(volume);
    let number = s.notes + 1;
    let at = place::note_slot(g, number);
    let end = at + 16;
    let slot = &mut volume[at..end];
    item::note::encode(slot, n);
    reply::done(next::noted(s, n))
}
