// What upkeep says, as numbers. `include/pagestore.h` declares it.
ghost use Rattle.std.specs.Prelude.{◌≡◌};
ghost use Rattle.face.specs.Advice.{upkeep_face};

use capi::advice;

// Which call to make next, or that there is nothing to do, or the page that upkeep is stuck at: 0 or the refusal.
#[unsafe(no_mangle)]
pub extern "C" fn pagestore_upkeep(
    volume: &[u8],
    memory: &[u8],
    state: &[u32],
    frame: u32,
    report: &mut [u32],
) -> u32
    ensures answer { result
        ≡ (upkeep_face volume.now memory.now state.now frame report.old
        ).refusal }
    ensures report { report.new
        ≡ (upkeep_face volume.now memory.now state.now frame report.old
        ).numbers }
{
    advice::pagestore_upkeep(volume, memory, state, frame, report)
}
