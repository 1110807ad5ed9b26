// The row of the index that a call may change, found before the call is made: only its numbers are written anew.
ghost use Rattle.std.specs.Prelude.{◌≡◌, List, ℕ, ◌+◌, ◌<◌};
ghost use Rattle.model.specs.Bytes.{field};
ghost use Rattle.model.specs.State.{pending_bytes};
ghost use Rattle.log_scan.specs.Rows.{row_of};
ghost use Rattle.face_step.specs.Targets.{note_page, touched};

use codec::field;
use model::command::Command;
use model::item::Note;

fn note_page(note: Option<Note>) -> u32
    ensures { result ≡ note_page note }
{
    note.map_or(0, |n| u32::from(n.page))
}

// The page of the oldest pending record.
fn forced_page(memory: &[u8], durable: u32) -> u32
    ensures { result ≡ field 2 8 (pending_bytes memory.now (durable + 1)) }
{
    let at = 64 * ((durable % 16) as usize);
    u32::from(field::u16_at(memory, at + 8))
}

// The page whose entry the call may change.
fn page(memory: &[u8], durable: u32, note: Option<Note>, command: Command) -> u32
    ensures { (p : List ℕ) → result ≡ touched (command, p) memory.now durable note }
{
    match command {
        Command::Begin { page, .. } | Command::Change { page, .. } => page,
        Command::Force => forced_page(memory, durable),
        Command::Note => note_page(note),
        _ => 0,
    }
}

// Its row, counted from 0.
pub fn row(memory: &[u8], durable: u32, note: Option<Note>, command: Command) -> usize
    ensures { ((p : List ℕ) → result ≡ row_of (touched (command, p) memory.now durable note)) × (result < 64) }
{
    log_scan::row(page(memory, durable, note, command))
}
