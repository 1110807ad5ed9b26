// The limits of a call that appends to the log: 11 and 12.
ghost use Rattle.std.specs.Prelude.{◌≡◌};
ghost use Rattle.model.specs.Refusals.{append_tail};
ghost use Rattle.model.specs.Refused.{error_number};
ghost use Rattle.model.specs.Tables.{first_of};

use model::answer::Refusal;
use model::state::State;
use room::log;
use volume::Volume;

// The refusal of a call that appends to the log: 16 records are pending, or the log is full.
pub fn refusal(s: State, v: &Volume<'_>) -> Result<(), Refusal>
    ensures { error_number result ≡ first_of (append_tail v.now.geometry v.now.bytes.now s) }
{
    if s.pending == 16 {
        return Err(Refusal::PendingFull);
    }
    if log::full(s, v) {
        return Err(Refusal::LogFull);
    }
    Ok(())
}
