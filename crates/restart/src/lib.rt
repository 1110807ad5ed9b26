// Restart: gives the state that a volume's log and notes hold, and zeroes the memory.
#![tactic(auto)]

ghost use Rattle.std.specs.Prelude.{◌≡◌, IfOk};
ghost use Rattle.model.specs.Outcome.{reply_of};
ghost use Rattle.model.specs.Refusals.{restart_rows};
ghost use Rattle.model.specs.Refused.{error_number};
ghost use Rattle.model.specs.Restart.{restart_of};
ghost use Rattle.model.specs.Tables.{first_of};
ghost use Rattle.index.specs.Scanned.{scanned_of};

use index::Scanned;
use model::answer::{Refusal, Reply};
use state::{next, reply};
use volume::{heading, memory};

// What the volume's scan finds, or the refusal: row 1, then 2, then the scan's 17 or 18.
fn scan(volume: &[u8], memory: &[u8]) -> Result<Scanned, Refusal>
    ensures refusal { error_number result ≡ first_of (restart_rows volume.now memory.now) }
    ensures clean { IfOk result (λ s. s ≡ scanned_of volume.now) }
{
    if !heading::valid(volume) {
        return Err(Refusal::BadVolume);
    }
    if !memory::memory(memory.len()) {
        return Err(Refusal::BadBuffer);
    }
    index::scan(volume)
}

// Restarts from a volume. Ruled out: records of before the restart left in the memory (tried); a durable count that is
// the notes' (tried); every call refused (tried); a refusal that gives a state, or zeroes the memory.
pub fn restart(volume: &[u8], memory: &mut [u8]) -> Reply
    ensures reply { result ≡ reply_of (restart_of volume.now memory.old) }
    ensures memory { memory.new ≡ (restart_of volume.now memory.old).memory }
{
    match scan(volume, memory) {
        Ok(scanned) => {
            memory.fill(0);
            reply::done(next::resumed(scanned))
        }
        Err(no) => reply::refused(next::zero(), no),
    }
}
