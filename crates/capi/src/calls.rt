// The calls on the state whose arguments go straight on. `include/pagestore.h` declares them.
ghost use Rattle.std.specs.Prelude.{◌≡◌};
ghost use Rattle.model.specs.Calls.{no_payload};
ghost use Rattle.model.specs.declared.command.Command.TheVariants.{Load, Force, Write, Backup, Release, Note};
ghost use Rattle.model.specs.declared.command.Command.TheVariants.{StartCarry, Restamp, FinishCarry};
ghost use Rattle.face.specs.Face.{faced, face_of};

use face_step::step;
use model::command::Command;
use volume::heading;

pub fn pagestore_load(
    volume: &mut [u8],
    memory: &mut [u8],
    state: &mut [u32],
    page: u32,
    frame: u32,
    report: &mut [u32],
) -> u32
    ensures { faced result state.new report.new memory.new volume.new
        ≡ face_of (Load page frame, no_payload) volume.old memory.old state.old
        report.old }
{
    step::step(
        volume,
        memory,
        state,
        Command::Load { page, frame },
        [0u8; 44],
        step::ANY,
        report,
    )
}

pub fn pagestore_force(
    volume: &mut [u8],
    memory: &mut [u8],
    state: &mut [u32],
    report: &mut [u32],
) -> u32
    ensures { faced result state.new report.new memory.new volume.new
        ≡ face_of (Force, no_payload) volume.old memory.old state.old
        report.old }
{
    step::step(
        volume,
        memory,
        state,
        Command::Force,
        [0u8; 44],
        step::ANY,
        report,
    )
}

pub fn pagestore_write(
    volume: &mut [u8],
    memory: &mut [u8],
    state: &mut [u32],
    page: u32,
    report: &mut [u32],
) -> u32
    ensures { faced result state.new report.new memory.new volume.new
        ≡ face_of (Write page, no_payload) volume.old memory.old state.old
        report.old }
{
    step::step(
        volume,
        memory,
        state,
        Command::Write { page },
        [0u8; 44],
        step::ANY,
        report,
    )
}

pub fn pagestore_backup(
    volume: &mut [u8],
    memory: &mut [u8],
    state: &mut [u32],
    page: u32,
    slot: u32,
    report: &mut [u32],
) -> u32
    ensures { faced result state.new report.new memory.new volume.new
        ≡ face_of (Backup page slot, no_payload) volume.old memory.old state.old
        report.old }
{
    step::step(
        volume,
        memory,
        state,
        Command::Backup { page, slot },
        [0u8; 44],
        step::ANY,
        report,
    )
}

pub fn pagestore_release(
    volume: &mut [u8],
    memory: &mut [u8],
    state: &mut [u32],
    page: u32,
    report: &mut [u32],
) -> u32
    ensures { faced result state.new report.new memory.new volume.new
        ≡ face_of (Release page, no_payload) volume.old memory.old state.old
        report.old }
{
    step::step(
        volume,
        memory,
        state,
        Command::Release { page },
        [0u8; 44],
        step::ANY,
        report,
    )
}

pub fn pagestore_note(
    volume: &mut [u8],
    memory: &mut [u8],
    state: &mut [u32],
    report: &mut [u32],
) -> u32
    ensures { faced result state.new report.new memory.new volume.new
        ≡ face_of (Note, no_payload) volume.old memory.old state.old
        report.old }
{
    step::step(
        volume,
        memory,
        state,
        Command::Note,
        [0u8; 44],
        step::ANY,
        report,
    )
}

pub fn pagestore_start_carry(
    volume: &mut [u8],
    memory: &mut [u8],
    state: &mut [u32],
    report: &mut [u32],
) -> u32
    ensures { faced result state.new report.new memory.new volume.new
        ≡ face_of (StartCarry, no_payload) volume.old memory.old state.old
        report.old }
{
    step::step(
        volume,
        memory,
        state,
        Command::StartCarry,
        [0u8; 44],
        heading::FIRST,
        report,
    )
}

pub fn pagestore_restamp(
    volume: &mut [u8],
    memory: &mut [u8],
    state: &mut [u32],
    report: &mut [u32],
) -> u32
    ensures { faced result state.new report.new memory.new volume.new
        ≡ face_of (Restamp, no_payload) volume.old memory.old state.old
        report.old }
{
    step::step(
        volume,
        memory,
        state,
        Command::Restamp,
        [0u8; 44],
        heading::CARRY,
        report,
    )
}

pub fn pagestore_finish_carry(
    volume: &mut [u8],
    memory: &mut [u8],
    state: &mut [u32],
    report: &mut [u32],
) -> u32
    ensures { faced result state.new report.new memory.new volume.new
        ≡ face_of (FinishCarry, no_payload) volume.old memory.old state.old
        report.old }
{
    step::step(
        volume,
        memory,
        state,
        Command::FinishCarry,
        [0u8; 44],
        heading::CARRY,
        report,
    )
}
