// The calls on the state whose arguments go straight on. `include/pagestore.h` declares them.
ghost use Rattle.std.specs.Prelude.{◌≡◌};
ghost use Rattle.model.specs.Calls.{no_payload};
ghost use Rattle.model.specs.declared.command.Command.TheVariants.{Load, Force, Write, Backup, Release, Note};
ghost use Rattle.model.specs.declared.command.Command.TheVariants.{StartCarry, Restamp, FinishCarry};
ghost use Rattle.face.specs.Face.{faced, face_of};

use capi::calls;

#[unsafe(no_mangle)]
pub extern "C" fn pagestore_load(
    volume: &mut [u8],
    memory: &mut [u8],
    state: &mut [u32],
    page: u32,
    frame: u32,
    report: &mut [u32],
) -> u32
    ensures { faced result state.new report.new memory.new volume.new
        ≡ face_of (Load page frame, no_payload) volume.old memory.old state.old
        report.old }
{
    calls::pagestore_load(volume, memory, state, page, frame, report)
}

#[unsafe(no_mangle)]
pub extern "C" fn pagestore_force(
    volume: &mut [u8],
    memory: &mut [u8],
    state: &mut [u32],
    report: &mut [u32],
) -> u32
    ensures { faced result state.new report.new memory.new volume.new
        ≡ face_of (Force, no_payload) volume.old memory.old state.old
        report.old }
{
    calls::pagestore_force(volume, memory, state, report)
}

#[unsafe(no_mangle)]
pub extern "C" fn pagestore_write(
    volume: &mut [u8],
    memory: &mut [u8],
    state: &mut [u32],
    page: u32,
    report: &mut [u32],
) -> u32
    ensures { faced result state.new report.new memory.new volume.new
        ≡ face_of (Write page, no_payload) volume.old memory.old state.old
        report.old }
{
    calls::pagestore_write(volume, memory, state, page, report)
}

#[unsafe(no_mangle)]
pub extern "C" fn pagestore_backup(
    volume: &mut [u8],
    memory: &mut [u8],
    state: &mut [u32],
    page: u32,
    slot: u32,
    report: &mut [u32],
) -> u32
    ensures { faced result state.new report.new memory.new volume.new
        ≡ face_of (Backup page slot, no_payload) volume.old memory.old state.old
        report.old }
{
    calls::pagestore_backup(volume, memory, state, page, slot, report)
}

#[unsafe(no_mangle)]
pub extern "C" fn pagestore_release(
    volume: &mut [u8],
    memory: &mut [u8],
    state: &mut [u32],
    page: u32,
    report: &mut [u32],
) -> u32
    ensures { faced result state.new report.new memory.new volume.new
        ≡ face_of (Release page, no_payload) volume.old memory.old state.old
        report.old }
{
    calls::pagestore_release(volume, memory, state, page, report)
}

#[unsafe(no_mangle)]
pub extern "C" fn pagestore_note(
    volume: &mut [u8],
    memory: &mut [u8],
    state: &mut [u32],
    report: &mut [u32],
) -> u32
    ensures { faced result state.new report.new memory.new volume.new
        ≡ face_of (Note, no_payload) volume.old memory.old state.old
        report.old }
{
    calls::pagestore_note(volume, memory, state, report)
}

#[unsafe(no_mangle)]
pub extern "C" fn pagestore_start_carry(
    volume: &mut [u8],
    memory: &mut [u8],
    state: &mut [u32],
    report: &mut [u32],
) -> u32
    ensures { faced result state.new report.new memory.new volume.new
        ≡ face_of (StartCarry, no_payload) volume.old memory.old state.old
        report.old }
{
    calls::pagestore_start_carry(volume, memory, state, report)
}

#[unsafe(no_mangle)]
pub extern "C" fn pagestore_restamp(
    volume: &mut [u8],
    memory: &mut [u8],
    state: &mut [u32],
    report: &mut [u32],
) -> u32
    ensures { faced result state.new report.new memory.new volume.new
        ≡ face_of (Restamp, no_payload) volume.old memory.old state.old
        report.old }
{
    calls::pagestore_restamp(volume, memory, state, report)
}

#[unsafe(no_mangle)]
pub extern "C" fn pagestore_finish_carry(
    volume: &mut [u8],
    memory: &mut [u8],
    state: &mut [u32],
    report: &mut [u32],
) -> u32
    ensures { faced result state.new report.new memory.new volume.new
        ≡ face_of (FinishCarry, no_payload) volume.old memory.old state.old
        report.old }
{
    calls::pagestore_finish_carry(volume, memory, state, report)
}
