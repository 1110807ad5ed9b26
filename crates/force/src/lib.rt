// Force: stores the oldest pending record, as its 64 bytes lie in memory, in the slot of its number.
#![tactic(auto)]

ghost use Rattle.std.specs.Prelude.{◌≡◌, []};
ghost use Rattle.model.specs.Refused.{error_number};
ghost use Rattle.model.specs.Tables.{first_of};
ghost use Rattle.model.specs.Refusals.{state_rows};
ghost use Rattle.model.specs.Outcome.{reply_of, volume_after};
ghost use Rattle.model.specs.Calls.{force_of};

use codec::{field, part};
use model::answer::{Refusal, Reply};
use model::state::State;
use state::{next, reply};
use volume::{heading, memory, place};

// Stores the oldest pending record and lowers the pending count; Nothing where none is pending.
// Ruled out: Nothing with records pending; a later record stored, or only the count lowered; an entry left with its old
// durable number.
pub fn force(s: State, checked: Result<(), Refusal>, volume: &mut [u8], memory: &[u8]) -> Reply
    requires { error_number checked ≡ first_of (state_rows volume.old memory.now s []) }
    ensures reply { result ≡ reply_of (force_of volume.old memory.now s) }
    ensures volume { volume.new
        ≡ volume_after volume.old (force_of volume.old memory.now s).stored }
{
    if let Err(no) = checked {
        return reply::refused(s, no);
    }
    if s.pending == 0 {
        return reply::nothing(s);
    }
    let g = heading::geometry(volume);
    let n = s.durable + 1;
    let from = memory::pending_at(n);
    let end = from + 64;
    let record = &memory[from..end];
    let page = u32::from(field::u16_at(record, 8));
    part::put(volume, place::log_slot(g, n), record);
    reply::done(next::forced(s, g.pages, page))
}
