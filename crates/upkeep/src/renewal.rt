// The renewal of a note, or of a record, of a page: one call nearer to it.
ghost use Rattle.std.specs.Prelude.{◌≡◌, ◌+◌, ◌≤◌, MatchOption};
ghost use Rattle.model.specs.State.{notes_full};
ghost use Rattle.upkeep_policy.specs.Upkeep.{free_slot, bring_in, back_up, write_out, renew, advised_by};

use crate::answer;
use codec::field;
use load::probe;
use model::answer::Refusal;
use model::command::Command;
use model::state::State;
use room::log;
use state::frames;
use upkeep_policy::upkeep::{Advised, Upkeep};
use volume::{Volume, memory};

// What a renewal goes by: the state, the volume and the memory, the frame that is left to upkeep, and whether there is
// no room for a note.
#[derive(Clone, Copy)]
pub struct Renewal<'a> {
    pub state: State,
    pub volume: Volume<'a>,
    pub memory: &'a [u8],
    pub frame: u32,
    pub full: bool,
    pub ghost told: { full ≡ notes_full volume.geometry volume.bytes.now state },
}

impl<'a> Renewal<'a> {
    // The lowest slot outside the index; None, for which the definition has the number behind the slots, where there is
    // none.
    fn free_slot(&self) -> Option<u32>
        ensures { MatchOption result
            (free_slot self.now.volume.geometry self.now.state ≡ self.now.volume.geometry.slots + 1)
            (λ b. (b ≡ free_slot self.now.volume.geometry self.now.state)
            × (b ≤ self.now.volume.geometry.slots)) }
    {
        let index = self.state.index;
        let slots = self.volume.geometry.slots;
        for b in 1..slots + 1 {
            if !index_rows::entries::used(index, b) {
                return Some(b);
            }
        }
        None
    }

    // The page is in no frame: a Load, unless the page is lost.
    fn bring_in(&self, page: u32) -> Advised
        ensures { result
            ≡ advised_by (bring_in self.now.volume.bytes.now self.now.memory.now self.now.state self.now.frame page) }
    {
        let frame = self.frame;
        if probe::refusal(self.state, self.volume.bytes, self.memory, page, frame)
            == Err(Refusal::PageLost)
        {
            return answer::plain(Upkeep::Stuck(page));
        }
        answer::plain(Upkeep::Make(Command::Load { page, frame }))
    }

    // A backup note, or a record: a Backup into the lowest free slot.
    fn back_up(&self, page: u32) -> Advised
        ensures { result ≡ advised_by (back_up self.now.volume.bytes.now self.now.state page) }
    {
        if self.full {
            return answer::plain(Upkeep::Stuck(page));
        }
        match self.free_slot() {
            Some(slot) => answer::plain(Upkeep::Make(Command::Backup { page, slot })),
            None => answer::plain(Upkeep::Stuck(page)),
        }
    }

    // A written note: a Write where the page is dirty, else the refreshing put that makes it so.
    fn write_out(&self, page: u32) -> Advised
        ensures { result
            ≡ advised_by (write_out self.now.volume.bytes.now self.now.memory.now self.now.state page) }
    {
        let f = frames::holder(self.state, page);
        let row = frames::frame(self.state, f);
        if row.dirty {
            if self.full {
                return answer::plain(Upkeep::Stuck(page));
            }
            return answer::plain(Upkeep::Make(Command::Write { page }));
        }
        if log::full(self.state, &self.volume) {
            return answer::plain(Upkeep::Stuck(page));
        }
        answer::put(page, field::byte(self.memory, memory::frame_at(f) + 8))
    }

    // The next call of the renewal of the page's note, written or backup.
    pub fn renew(&self, page: u32, written: bool) -> Advised
        ensures { result
            ≡ advised_by (renew self.now.volume.bytes.now self.now.memory.now self.now.state self.now.frame page
            written) }
    {
        if !frames::held(self.state, page) {
            return self.bring_in(page);
        }
        if written {
            return self.write_out(page);
        }
        self.back_up(page)
    }
}
