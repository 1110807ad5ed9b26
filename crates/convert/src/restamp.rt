// Restamp: the first image that passes only the old sum gets the byte sum.
ghost use Rattle.std.specs.Prelude.{◌≡◌, []};
ghost use Rattle.model.specs.Refused.{error_number};
ghost use Rattle.model.specs.Tables.{first_of};
ghost use Rattle.model.specs.Refusals.{state_rows};
ghost use Rattle.model.specs.Outcome.{reply_of, volume_after};
ghost use Rattle.model.specs.Calls.{restamp_of};

use crate::{heading, images};
use item::image;
use model::answer::{Answer, Refusal, Reply};
use model::state::State;
use volume::Volume;
use volume::heading::CARRY;

// Sets the byte sum of the first image, pages before slots, that passes only the old sum, the rest of it as it lies;
// Nothing where none is left.
// Ruled out: a failing image sealed; Nothing with such an image left; Done with none left.
pub fn restamp(s: State, checked: Result<(), Refusal>, volume: &mut [u8], memory: &[u8]) -> Reply
    requires { error_number checked ≡ first_of (state_rows volume.old memory.now s []) }
    ensures reply { result ≡ reply_of (restamp_of volume.old memory.now s) }
    ensures volume { volume.new
        ≡ volume_after volume.old (restamp_of volume.old memory.now s).stored }
{
    if let Err(refusal) = heading::refusal(volume, CARRY, checked) {
        return Reply {
            answer: Answer::from(refusal),
            state: s,
        };
    }
    let v = Volume::of(volume);
    let g = v.geometry;
    let Some(i) = images::first_old(&v, s.index) else {
        return Reply {
            answer: Answer::Nothing,
            state: s,
        };
    };
    let at = images::image_at(g, i);
    let end = at + 256;
    let old = &mut volume[at..end];
    image::seal(old, g);
    Reply {
        answer: Answer::Done,
        state: s,
    }
}
