// What mending says, made of its parts.
ghost use Rattle.std.specs.Prelude.{◌≡◌};
ghost use Rattle.model.specs.Calls.{no_payload};
ghost use Rattle.mend.specs.Parts.{mended_from};

use mend_policy::mending::{Mend, Mended};
use upkeep_policy::upkeep::{Advised, Upkeep};

// Without a payload.
pub fn plain(mend: Mend) -> Mended
    ensures { result ≡ record { mend = mend; payload = no_payload } }
{
    Mended {
        mend,
        payload: [0; 44],
    }
}

// What upkeep's renewal of the page says, of a page that is in a frame or in none.
pub fn from(held: bool, a: Advised) -> Mended
    ensures { result ≡ mended_from held a }
{
    let payload = a.payload;
    match a.upkeep {
        Upkeep::Refused(no) => plain(Mend::Refused(no)),
        Upkeep::Idle => plain(Mend::Whole),
        Upkeep::Stuck(_) => {
            if held {
                plain(Mend::Full)
            } else {
                plain(Mend::Lost)
            }
        }
        Upkeep::Make(c) => Mended {
            mend: Mend::Make(c),
            payload,
        },
    }
}
