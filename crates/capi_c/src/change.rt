// Change for C: numbers that no record holds make a change that Change refuses.
ghost use Rattle.std.specs.Prelude.{◌≡◌};
ghost use Rattle.std.proofs.Math.ListN as lists;
ghost use Rattle.model.specs.declared.command.Command.TheVariants as commands;
ghost use Rattle.face.specs.Face.{faced, face_of};
ghost use Rattle.face.specs.Arguments.{change_from, payload_from};

use capi::change;

#[unsafe(no_mangle)]
pub extern "C" fn pagestore_change(
    volume: &mut [u8],
    memory: &mut [u8],
    state: &mut [u32],
    page: u32,
    kind: u32,
    offset: u32,
    length: u32,
    fill: u32,
    payload: &[u8],
    report: &mut [u32],
) -> u32
    ensures { faced result state.new report.new memory.new volume.new
        ≡ face_of (
          commands.Change page (change_from kind offset length fill (lists.length payload.now)),
          payload_from payload.now,
        ) volume.old memory.old state.old
        report.old }
{
    change::pagestore_change(
        volume, memory, state, page, kind, offset, length, fill, payload, report,
    )
}
