// The rows 1 and 2 of a refusal table, which every call on the state starts with.
ghost use Rattle.std.specs.Prelude.{◌≡◌, List, [], ℕ, length};
ghost use Rattle.model.specs.Refused.{error_number};
ghost use Rattle.model.specs.Tables.{first_of};
ghost use Rattle.model.specs.Refusals.{state_rows};

use crate::well_formed;
use model::answer::Refusal;
use model::state::State;
use volume::{Volume, memory};

// The refusal of a call on the state that its own rows do not give, tested in the table's order, the magic first; size
// is the memory's.
pub fn refusal(s: State, volume: &[u8], size: usize) -> Result<(), Refusal>
    ensures { (m : List ℕ) → length m ≡ size → error_number result ≡ first_of (state_rows volume.now m s []) }
{
    let v = Volume::open(volume)?;
    if !memory::memory(size) {
        return Err(Refusal::BadBuffer);
    }
    if !well_formed::well_formed(s, v.geometry, memory::frames(size)) {
        return Err(Refusal::BadBuffer);
    }
    Ok(())
}
