// What Load would answer, without loading.
ghost use Rattle.std.specs.Prelude.{◌≡◌};
ghost use Rattle.model.specs.Refused.{error_number};
ghost use Rattle.model.specs.Tables.{first_of};
ghost use Rattle.model.specs.Refusals.{load_rows};

use model::answer::Refusal;
use model::state::State;

// The refusal that Load would give.
// Ruled out: a page that is lost told as one that loads (tried).
pub fn refusal(s: State, volume: &[u8], memory: &[u8], page: u32, frame: u32) -> Result<(), Refusal>
    ensures { error_number result ≡ first_of (load_rows volume.now memory.now s page frame) }
{
    let size = memory.len();
    let checked = state::refusal::refusal(s, volume, size);
    crate::find(s, checked, volume, size, page, frame)?;
    Ok(())
}
