// What upkeep says, made of its parts.
ghost use Rattle.std.specs.Prelude.{◌≡◌, ◌∷◌, replicate};
ghost use Rattle.model.specs.Calls.{no_payload};
ghost use Rattle.upkeep_policy.specs.declared.upkeep.Upkeep.TheVariants as says;
ghost use Rattle.model.specs.declared.change.Change.TheVariants as changes;
ghost use Rattle.model.specs.declared.command.Command.TheVariants as commands;

use model::change::Change;
use model::command::Command;
use upkeep_policy::upkeep::{Advised, Upkeep};

// Without a payload.
pub fn plain(upkeep: Upkeep) -> Advised
    ensures { result ≡ record { upkeep = upkeep; payload = no_payload } }
{
    Advised {
        upkeep,
        payload: [0; 44],
    }
}

// The refreshing put: the byte once more at the front of the page's body.
pub fn put(page: u32, byte: u8) -> Advised
    ensures { result
        ≡ record { upkeep = says.Make (commands.Change page (changes.Put 0 1)); payload = byte ∷ replicate 43 0 } }
{
    let mut payload = [0; 44];
    payload[0] = byte;
    let change = Change::Put {
        offset: 0,
        length: 1,
    };
    Advised {
        upkeep: Upkeep::Make(Command::Change { page, change }),
        payload,
    }
}
