// What mending says of a page, as numbers.
ghost use Rattle.std.specs.Prelude.{◌≡◌};
ghost use Rattle.face.specs.Mending.{mend_face};

use capi::mending;

// Which call gives the page both of its starts again, or what it has without one: 0 or the refusal.
#[unsafe(no_mangle)]
pub extern "C" fn pagestore_mend(
    volume: &[u8],
    memory: &[u8],
    state: &[u32],
    frame: u32,
    page: u32,
    report: &mut [u32],
) -> u32
    ensures answer { result
        ≡ (mend_face volume.now memory.now state.now frame page report.old
        ).refusal }
    ensures report { report.new
        ≡ (mend_face volume.now memory.now state.now frame page report.old
        ).numbers }
{
    mending::pagestore_mend(volume, memory, state, frame, page, report)
}
