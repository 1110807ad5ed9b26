// Finish: a volume that is carried over gets the second heading.
ghost use Rattle.std.specs.Prelude.{◌≡◌, []};
ghost use Rattle.model.specs.Refused.{error_number};
ghost use Rattle.model.specs.Tables.{first_of};
ghost use Rattle.model.specs.Refusals.{state_rows, finish_carry_rows};
ghost use Rattle.model.specs.Outcome.{reply_of, volume_after};
ghost use Rattle.model.specs.Calls.{finish_carry_of};

use crate::{heading, images};
use model::answer::{Answer, Refusal, Reply};
use model::state::State;
use volume::Volume;
use volume::heading::{CARRY, SECOND};

// The refusal, the lowest that holds; 20 where an image is left that passes only the old sum.
fn refusal(
    s: State,
    checked: Result<(), Refusal>,
    volume: &[u8],
    memory: &[u8],
) -> Result<(), Refusal>
    requires { error_number checked ≡ first_of (state_rows volume.now memory.now s []) }
    ensures { error_number result ≡ first_of (finish_carry_rows volume.now memory.now s) }
{
    heading::refusal(volume, CARRY, checked)?;
    let v = Volume::of(volume);
    match images::first_old(&v, s.index) {
        Some(_) => Err(Refusal::OldImage),
        None => Ok(()),
    }
}

// Stores the second heading; from then on an image passes under the byte sum alone.
// Ruled out: done while an image is left that passes only the old sum; done where only the pages are carried
// over.
pub fn finish(s: State, checked: Result<(), Refusal>, volume: &mut [u8], memory: &[u8]) -> Reply
    requires { error_number checked ≡ first_of (state_rows volume.old memory.now s []) }
    ensures reply { result ≡ reply_of (finish_carry_of volume.old memory.now s) }
    ensures volume { volume.new
        ≡ volume_after volume.old (finish_carry_of volume.old memory.now s).stored }
{
    if let Err(refusal) = refusal(s, checked, volume, memory) {
        return Reply {
            answer: Answer::from(refusal),
            state: s,
        };
    }
    heading::put(volume, SECOND);
    Reply {
        answer: Answer::Done,
        state: s,
    }
}
