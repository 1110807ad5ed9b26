// What a repair answers.
ghost use Rattle.std.specs.Prelude.{◌≡◌};
ghost use Rattle.model.specs.Repair.{start_of};
ghost use Rattle.repair.specs.Walked.{repair_as};

use crate::walk::Walked;
use model::answer::{Repair, Start, Stop};

// The start that is answered.
fn start(stop: Stop) -> Start
    ensures { result ≡ start_of stop }
{
    match stop {
        Stop::Own => Start::Own,
        Stop::Backup => Start::Backup,
        Stop::Format | Stop::Broken | Stop::Below => Start::Format,
    }
}

// The class, the start and the count replayed.
// Ruled out: a made-up count (tried); start Own for an image that is not valid.
pub fn answer(w: Walked) -> Repair
    ensures { result ≡ repair_as w }
{
    Repair {
        class: w.class,
        start: start(w.stop),
        count: w.count,
    }
}
