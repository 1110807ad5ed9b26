// Functions for the benchmark, called from outside: the two sums of a part, and cycles of calls on a made volume.
#![tactic(auto)]

ghost use Rattle.std.specs.Prelude.{◌≡◌, cond, ◌≤◌, leb};
ghost use Rattle.model.specs.Checksum.{checksum, byte_sum};
ghost use Rattle.bench_calls.specs.Cycles.{is_refused, restart_run, command_at, cycled};

use model::answer::Answer;
use model::change::Change;
use model::command::Command;
use store::Store;
use sums::{byte_sum, checksum};

// The checksum of bytes. Ruled out: the sum of the first words only; a sum without its remainder.
#[unsafe(no_mangle)]
pub extern "C" fn pagestore_checksum(part: &[u8]) -> u32
    ensures { result ≡ checksum part.now }
{
    checksum::sum(part)
}

// The byte sum of bytes. Ruled out: the word sum; a last byte left out.
#[unsafe(no_mangle)]
pub extern "C" fn pagestore_byte_sum(part: &[u8]) -> u32
    ensures { result ≡ byte_sum part.now }
{
    byte_sum::sum(part)
}

// 1 for a refusal.
fn refused(a: Answer) -> u32
    ensures { (result ≡ is_refused a) × (result ≤ 1) }
{
    u32::from(matches!(a, Answer::Refused(_)))
}

// Command j of the cycles, seven a cycle: page n + 1 is begun in frame 1, changed, forced twice, written and noted, and
// page n is loaded into frame 2.
fn command(j: u32) -> Command
    ensures { result ≡ command_at j }
{
    let n = j / 7;
    let page = n + 1;
    let change = Change::Put {
        offset: 100,
        length: 44,
    };
    match j % 7 {
        0 => Command::Begin {
            page,
            frame: 1,
            fill: 7,
        },
        1 => Command::Change { page, change },
        2 => Command::Force,
        3 => Command::Force,
        4 => Command::Write { page },
        5 => Command::Note,
        _ => Command::Load { page: n, frame: 2 },
    }
}

// The number of cycles that are played: no more than a log has room for.
fn cut(count: u32) -> u32
    ensures { (result ≡ cond (leb count 1024) count 1024) × (result ≤ 1024) }
{
    if count <= 1024 { count } else { 1024 }
}

// Restarts from a volume, and gives the number of refusals, 1 or 0. No benchmark calls it: by it Restart has a second
// caller, and so is not expanded into the cycles (docs/PERFORMANCE.md). Ruled out: a refusal that is not counted; a
// memory that is left as it was.
#[unsafe(no_mangle)]
pub extern "C" fn measure_restart(volume: &[u8], memory: &mut [u8]) -> u32
    ensures refused { result ≡ (restart_run volume.now memory.old).refused }
    ensures memory { memory.new ≡ (restart_run volume.now memory.old).memory }
{
    let restarted = Store::restart(volume, memory);
    let answer = restarted.answer;
    refused(answer)
}

// Restarts from a volume, plays `count` cycles, at most 1,024, and gives the number of refusals. On a made volume with
// room for them all there is one: the first cycle has no page 0 to load. Ruled out: a refusal that is not counted; a
// cycle that is not played; a count that runs on past the calls.
#[unsafe(no_mangle)]
pub extern "C" fn pagestore_cycles(volume: &mut [u8], memory: &mut [u8], count: u32) -> u32
    ensures refused { result ≡ (cycled volume.old memory.old count).refused }
    ensures volume { volume.new ≡ (cycled volume.old memory.old count).volume }
    ensures memory { memory.new ≡ (cycled volume.old memory.old count).memory }
{
    let restarted = Store::restart(volume, memory);
    let answer = restarted.answer;
    let mut store = restarted.store;
    let mut total = refused(answer);
    let most = 7 * cut(count);
    for j in 0..most {
        let o = store.perform(volume, memory, command(j), [9; 44]);
        store = o.store;
        total += refused(o.answer);
    }
    total
}
