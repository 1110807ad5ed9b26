// Release: a page leaves its frame without being written; its image on disk stays old, and a later Load repairs it.
ghost use Rattle.std.specs.Prelude.{◌≡◌, [], IfOk};
ghost use Rattle.model.specs.Refused.{error_number};
ghost use Rattle.model.specs.Tables.{first_of};
ghost use Rattle.model.specs.Refusals.{state_rows, release_rows, release_tail};
ghost use Rattle.model.specs.State.{holder};
ghost use Rattle.model.specs.Outcome.{reply_of};
ghost use Rattle.model.specs.Calls.{release_of};

use model::answer::{Answer, Refusal, Reply};
use model::geometry::Geometry;
use model::state::State;
use state::{frames, next};
use volume::heading;

// The rows of Release's own, for the frame that holds the page, or 0.
fn own(s: State, g: Geometry, page: u32, f: u32) -> Result<(), Refusal>
    ensures { error_number result ≡ first_of (release_tail g s page f) }
{
    if !((1 <= page) & (page <= g.pages)) {
        return Err(Refusal::NoSuchPage);
    }
    if !(0 < f) {
        return Err(Refusal::NoFrame);
    }
    if frames::blocked(s, f) {
        return Err(Refusal::ChangePending);
    }
    Ok(())
}

// The frame that holds the page, or the refusal; checked is that of the rows 1 and 2.
fn held(
    s: State,
    checked: Result<(), Refusal>,
    volume: &[u8],
    memory: &[u8],
    page: u32,
) -> Result<u32, Refusal>
    requires { error_number checked ≡ first_of (state_rows volume.now memory.now s []) }
    ensures refusal { error_number result ≡ first_of (release_rows volume.now memory.now s page) }
    ensures frame { IfOk result (λ f. f ≡ holder s page) }
{
    checked?;
    let f = frames::holder(s, page);
    own(s, heading::geometry(volume), page, f)?;
    Ok(f)
}

// Empties the page's frame; its bytes stay, which the memory, lent for reading alone, shows.
// Ruled out: a page with a pending change let go (tried); a row left dirty (tried); the page left in the frame (tried).
pub fn release(
    s: State,
    checked: Result<(), Refusal>,
    volume: &[u8],
    memory: &[u8],
    page: u32,
) -> Reply
    requires { error_number checked ≡ first_of (state_rows volume.now memory.now s []) }
    ensures { result ≡ reply_of (release_of volume.now memory.now s page) }
{
    match held(s, checked, volume, memory, page) {
        Err(refusal) => Reply {
            answer: Answer::from(refusal),
            state: s,
        },
        Ok(f) => Reply {
            answer: Answer::Done,
            state: next::loaded(s, 0, f, false),
        },
    }
}
