// C's functions in a history. Each function here only calls the one of `capi` whose clauses the exported one has
// (`capi_c`), and its contract speaks of a legal history: so what is proved of it holds of the exported function, by that
// function's own contract.
#![tactic(auto)]

ghost use Rattle.model.specs.Calls.{no_payload};
ghost use Rattle.model.specs.declared.command.Command.TheVariants.{Force};
ghost use Rattle.model.specs.declared.geometry.Heading.TheVariants.{Second};
ghost use Rattle.face.specs.Face.{faced, restarted};
ghost use Rattle.called.specs.Histories.{Makes, Restarts, Performs, Shows};

use capi::{calls, readers, volumes};

// A Make that answers 0 begins a history.
pub fn make(volume: &mut [u8], pages: u32, slots: u32, records: u32, notes: u32) -> u32
    ensures { Makes Second volume.old pages slots records notes result volume.new }
{
    volumes::pagestore_make(volume, pages, slots, records, notes)
}

// A Restart is the history's next event.
pub fn restart(volume: &[u8], memory: &mut [u8], state: &mut [u32]) -> u32
    ensures { Restarts volume.now memory.old state.old
        (restarted result state.new memory.new) }
{
    volumes::pagestore_restart(volume, memory, state)
}

// So is a Force.
pub fn force(volume: &mut [u8], memory: &mut [u8], state: &mut [u32], report: &mut [u32]) -> u32
    ensures { Performs (Force, no_payload) volume.old memory.old state.old
        report.old
        (faced result state.new report.new memory.new volume.new) }
{
    calls::pagestore_force(volume, memory, state, report)
}

// An inspection shows the replay.
pub fn inspect(volume: &[u8], page: u32, buffer: &mut [u8]) -> u32
    ensures { Shows volume.now page buffer.old result buffer.new }
{
    readers::pagestore_inspect(volume, page, buffer)
}
