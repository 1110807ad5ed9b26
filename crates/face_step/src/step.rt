// The step that every call on the state makes: the state out of its numbers, the call that a command names, what it
// changed into the numbers, and the report.
ghost use Rattle.std.specs.Prelude.{◌≡◌};
ghost use Rattle.face_step.specs.Targets.{own_magic, headed_by};
ghost use Rattle.face.specs.Face.{faced, face_of};

use crate::{range, report, touched};
use model::answer::Refusal;
use model::command::Command;
use store::Store;
use volume::heading;

// In place of a heading: the call takes a volume with any of them.
pub const ANY: [u8; 4] = [0, 0, 0, 0];

// The volume starts with a heading that the call takes.
fn headed(volume: &[u8], own: [u8; 4]) -> bool
    ensures { result ≡ headed_by own volume.now }
{
    if own[0] == 0 {
        return heading::known(volume);
    }
    heading::headed(volume, own)
}

// Makes the call that the command names. The heading is compared before a count is read.
pub fn step(
    volume: &mut [u8],
    memory: &mut [u8],
    state: &mut [u32],
    command: Command,
    payload: [u8; 44],
    own: [u8; 4],
    report: &mut [u32],
) -> u32
    requires { own ≡ own_magic (command, payload) }
    ensures { faced result state.new report.new memory.new volume.new
        ≡ face_of (command, payload) volume.old memory.old state.old
        report.old }
{
    if !headed(volume, own) {
        return u32::from(Refusal::BadVolume);
    }
    if !numbers::fits(state) | (report.len() != 5) {
        return u32::from(heading::bad_buffer(volume));
    }
    let before = numbers::decode(state);
    let x = range::aim(volume, before, command);
    let row = touched::row(memory, before.durable, before.note, command);
    let store = Store { state: before };
    let returned = store.perform(volume, memory, command, payload);
    numbers::update(returned.store.state, row, state);
    report::tell(returned.answer, x, report);
    report::number(returned.answer)
}
