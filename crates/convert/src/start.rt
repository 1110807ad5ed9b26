// Start: a volume's first heading becomes that of a volume that is being carried over.
ghost use Rattle.std.specs.Prelude.{◌≡◌, []};
ghost use Rattle.model.specs.Refused.{error_number};
ghost use Rattle.model.specs.Tables.{first_of};
ghost use Rattle.model.specs.Refusals.{state_rows};
ghost use Rattle.model.specs.Outcome.{reply_of, volume_after};
ghost use Rattle.model.specs.Calls.{start_carry_of};

use crate::heading;
use model::answer::{Answer, Refusal, Reply};
use model::state::State;
use volume::heading::{CARRY, FIRST};

// Stores the third heading; from then on an image passes under either sum.
// Ruled out: done on a volume that is under way or carried over; the second heading stored at once.
pub fn start(s: State, checked: Result<(), Refusal>, volume: &mut [u8], memory: &[u8]) -> Reply
    requires { error_number checked ≡ first_of (state_rows volume.old memory.now s []) }
    ensures reply { result ≡ reply_of (start_carry_of volume.old memory.now s) }
    ensures volume { volume.new
        ≡ volume_after volume.old (start_carry_of volume.old memory.now s).stored }
{
    if let Err(refusal) = heading::refusal(volume, FIRST, checked) {
        return Reply {
            answer: Answer::from(refusal),
            state: s,
        };
    }
    heading::put(volume, CARRY);
    Reply {
        answer: Answer::Done,
        state: s,
    }
}
