// Upkeep: which call to make next so that a ring store keeps room. It reads, and stores nothing: the notes in one
// pass (`notes::pass`), half the log in one (`log::first`).
#![tactic(auto)]

mod answer;
mod log;
mod notes;
pub mod renewal;

ghost use Rattle.std.specs.Prelude.{◌≡◌, true};
ghost use Rattle.model.specs.Refused.{error_number};
ghost use Rattle.model.specs.Tables.{first_of};
ghost use Rattle.model.specs.Geometry.{ring};
ghost use Rattle.upkeep_policy.specs.Upkeep.{advised_by, advise_rows, advise_of, upkeep_of};
ghost use Rattle.upkeep.specs.Parts.{ring_advice};

use crate::renewal::Renewal;
use model::answer::Refusal;
use model::command::Command;
use model::state::State;
use upkeep_policy::upkeep::{Advised, Upkeep};
use volume::{Volume, memory, ring};

// State, volume, memory and frame are one struct from where it is known whether the notes are full (`Renewal`); the few
// functions before that pass them on.

// The refusal: as a call on the state, and 4 where the frame is none of the memory's.
fn refusal(s: State, volume: &[u8], memory: &[u8], frame: u32) -> Result<(), Refusal>
    ensures { error_number result ≡ first_of (advise_rows volume.now memory.now s frame) }
{
    state::refusal::refusal(s, volume, memory.len())?;
    let count = memory::frames(memory.len());
    if !((1 <= frame) & (frame as usize <= count)) {
        return Err(Refusal::NoSuchFrame);
    }
    Ok(())
}

// In a ring, with nothing pending: the first needed note position, then the first needed log position.
fn renewed(s: State, v: &Volume<'_>, memory: &[u8], frame: u32) -> Advised
    requires { ring v.now.geometry ≡ true }
    ensures { result ≡ advised_by (ring_advice v.now.bytes.now memory.now s frame) }
{
    let first = notes::first(s, v);
    let renewal = Renewal {
        state: s,
        volume: *v,
        memory,
        frame,
        full: notes::full(s, v, first),
    };
    if let Some(i) = first {
        let n = notes::at(s, v, i);
        return renewal.renew(u32::from(n.page), n.kind == 1);
    }
    if let Some(j) = log::first(s, v) {
        return renewal.renew(log::page(s, v, j), false);
    }
    answer::plain(Upkeep::Idle)
}

// The policy, on a sound state.
fn policy(s: State, v: &Volume<'_>, memory: &[u8], frame: u32) -> Advised
    ensures { result ≡ advised_by (upkeep_of v.now.bytes.now memory.now s frame) }
{
    if let Some(_) = s.note {
        return answer::plain(Upkeep::Make(Command::Note));
    }
    if 0 < s.pending {
        return answer::plain(Upkeep::Make(Command::Force));
    }
    if !ring::ring(v.geometry) {
        return answer::plain(Upkeep::Idle);
    }
    renewed(s, v, memory, frame)
}

// The next call, or that there is nothing to do, or the page that upkeep is stuck at; frame is left to upkeep.
// Ruled out: only the next note's position looked at (tried); a slot that is none (tried); a lost page loaded (tried);
// a put that changes the page's text (tried); less than half the log made spare (tried).
pub fn advise(s: State, volume: &[u8], memory: &[u8], frame: u32) -> Advised
    ensures { result ≡ advise_of volume.now memory.now s frame }
{
    if let Err(refusal) = refusal(s, volume, memory, frame) {
        return answer::plain(Upkeep::Refused(u32::from(refusal)));
    }
    policy(s, &Volume::of(volume), memory, frame)
}
