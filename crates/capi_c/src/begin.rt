// Begin for C: a fill that is no byte is judged in its place.
ghost use Rattle.std.specs.Prelude.{◌≡◌};
ghost use Rattle.face.specs.Face.{faced};
ghost use Rattle.face.specs.Arguments.{begin_face};

use capi::begin;

#[unsafe(no_mangle)]
pub extern "C" fn pagestore_begin(
    volume: &mut [u8],
    memory: &mut [u8],
    state: &mut [u32],
    page: u32,
    frame: u32,
    fill: u32,
    report: &mut [u32],
) -> u32
    ensures { faced result state.new report.new memory.new volume.new
        ≡ begin_face page frame fill volume.old memory.old state.old
        report.old }
{
    begin::pagestore_begin(volume, memory, state, page, frame, fill, report)
}
