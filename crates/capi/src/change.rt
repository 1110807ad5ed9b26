// Change for C: numbers that no record holds make a change that Change refuses.
ghost use Rattle.std.specs.Prelude.{◌≡◌};
ghost use Rattle.std.proofs.Math.ListN as lists;
ghost use Rattle.model.specs.declared.command.Command.TheVariants as commands;
ghost use Rattle.face.specs.Face.{faced, face_of};
ghost use Rattle.face.specs.Arguments.{change_from, payload_from};

use codec::field;
use face_step::step;
use model::change::Change;
use model::command::Command;

// The change that the numbers ask for.
fn change_from(kind: u32, offset: u32, size: u32, fill: u32, n: usize) -> Change
    ensures { result ≡ change_from kind offset size fill n }
{
    let unfit = Change::Put {
        offset: 65535,
        length: 255,
    };
    let format = (size == 0) & ((offset == 0) & ((fill <= 255) & (n <= 44)));
    let bytes = (size as usize <= n) & ((offset <= 65535) & ((fill == 0) & (n <= 44)));
    if kind == 1 {
        if format {
            return Change::Format { fill: fill as u8 };
        }
        return unfit;
    }
    if !bytes {
        return unfit;
    }
    if kind == 2 {
        return Change::Put {
            offset: offset as u16,
            length: size as u8,
        };
    }
    if kind == 3 {
        return Change::Slide {
            offset: offset as u16,
            length: size as u8,
        };
    }
    unfit
}

fn payload_from(xs: &[u8]) -> [u8; 44]
    ensures { result ≡ payload_from xs.now }
{
    let mut bytes = [0u8; 44];
    for i in 0..44 {
        bytes[i] = field::byte(xs, i);
    }
    bytes
}

pub fn pagestore_change(
    volume: &mut [u8],
    memory: &mut [u8],
    state: &mut [u32],
    page: u32,
    kind: u32,
    offset: u32,
    length: u32,
    fill: u32,
    payload: &[u8],
    report: &mut [u32],
) -> u32
    ensures { faced result state.new report.new memory.new volume.new
        ≡ face_of (
          commands.Change page (change_from kind offset length fill (lists.length payload.now)),
          payload_from payload.now,
        ) volume.old memory.old state.old
        report.old }
{
    let change = change_from(kind, offset, length, fill, payload.len());
    let command = Command::Change { page, change };
    let bytes = payload_from(payload);
    step::step(volume, memory, state, command, bytes, step::ANY, report)
}
