// Mending: which call to make next, where upkeep has nothing to do, so that a page has both of its starts again. It
// reads, and stores nothing.
#![tactic(auto)]

mod answer;
mod starts;

ghost use Rattle.std.specs.Prelude.{◌≡◌, ◌≤◌, IfOk};
ghost use Rattle.model.specs.Refused.{error_number};
ghost use Rattle.model.specs.Tables.{first_of};
ghost use Rattle.model.specs.Index.{entry_of};
ghost use Rattle.model.specs.Repair.{state_view, own_start, class_in};
ghost use Rattle.model.specs.State.{held};
ghost use Rattle.upkeep_policy.specs.Upkeep.{renew};
ghost use Rattle.mend_policy.specs.Mend.{mending, mend_of, mended_by, mend_rows, mended_of};
ghost use Rattle.mend.specs.Parts.{second_part, standing_part};

use crate::starts::OwnImage;
use mend_policy::mending::{Mend, Mended};
use model::answer::{Class, Refusal};
use model::state::{Entry, State};
use room::notes;
use state::{entries, frames};
use upkeep::renewal::Renewal;
use volume::{Volume, memory, ring};

// A page that is mended: the state, the volume and the memory, the frame that is left to upkeep, the page and its
// entry.
#[derive(Clone, Copy)]
struct Target<'a> {
    state: State,
    volume: Volume<'a>,
    memory: &'a [u8],
    frame: u32,
    page: u32,
    entry: Entry,
    ghost low: { 1 ≤ page },
    ghost high: { page ≤ volume.geometry.pages },
    ghost read: { entry ≡ entry_of state.index page },
    ghost slot: { entry.slot ≤ volume.geometry.slots },
}

impl<'a> Target<'a> {
    // The page, where nothing refuses: as a call on the state, then 3 where there is no such page and 4 where there is
    // no such frame.
    fn open(
        s: State,
        volume: &'a [u8],
        memory: &'a [u8],
        frame: u32,
        page: u32,
    ) -> Result<Target<'a>, Refusal>
        ensures refusal { error_number result ≡ first_of (mend_rows volume.now memory.now s frame page) }
        ensures page { IfOk result (λ t. (t.state ≡ s) × (t.volume.bytes.now ≡ volume.now)
            × (t.memory.now ≡ memory.now) × (t.frame ≡ frame) × (t.page ≡ page)) }
    {
        state::refusal::refusal(s, volume, memory.len())?;
        let v = Volume::of(volume);
        if !((1 <= page) & (page <= v.geometry.pages)) {
            return Err(Refusal::NoSuchPage);
        }
        let count = memory::frames(memory.len());
        if !((1 <= frame) & (frame as usize <= count)) {
            return Err(Refusal::NoSuchFrame);
        }
        Ok(Target {
            state: s,
            volume: v,
            memory,
            frame,
            page,
            entry: entries::entry(s, page),
        })
    }

    // The next call of the page's backup, or of its write.
    fn renewed(&self, written: bool) -> Mended
        ensures { result ≡ mended_by (mending (held self.now.state self.now.page)
            (renew self.now.volume.bytes.now self.now.memory.now self.now.state self.now.frame self.now.page written)) }
    {
        let renewal = Renewal {
            state: self.state,
            volume: self.volume,
            memory: self.memory,
            frame: self.frame,
            full: notes::full(self.state, &self.volume),
        };
        answer::from(
            frames::held(self.state, self.page),
            renewal.renew(self.page, written),
        )
    }

    // The backup is a start: a write where the page needs and may have one, else what the page has.
    fn standing(&self, own: OwnImage) -> Mended
        requires { (own.number ≡ own_start self.now.volume.geometry self.now.page
            (state_view self.now.volume.geometry self.now.volume.bytes.now self.now.state self.now.page))
            × (own.class ≡ class_in self.now.volume.geometry self.now.page
            (state_view self.now.volume.geometry self.now.volume.bytes.now self.now.state self.now.page)) }
        ensures { result ≡ mended_by (standing_part self.now.volume.bytes.now self.now.memory.now self.now.state
            self.now.frame self.now.page) }
    {
        let start = starts::after(&self.volume, self.state.durable);
        let far = starts::reaches(self, own.number, start);
        let stale = own.class == Class::Stale;
        if starts::may_write(self.volume.geometry, self.entry) & (!far | stale) {
            return self.renewed(true);
        }
        if far {
            answer::plain(Mend::Whole)
        } else {
            answer::plain(Mend::Single)
        }
    }

    // A page with a durable change, in a ring.
    fn changed(&self) -> Mended
        ensures { result ≡ mended_by (second_part self.now.volume.bytes.now self.now.memory.now self.now.state
            self.now.frame self.now.page) }
    {
        let own = starts::judge(self);
        let ahead = own.class == Class::Ahead;
        if ahead {
            return answer::plain(Mend::Ahead);
        }
        if !starts::stands(self) {
            return self.renewed(false);
        }
        self.standing(own)
    }

    // The policy, on a sound state.
    fn policy(&self) -> Mended
        ensures { result ≡ mended_by (mend_of self.now.volume.bytes.now self.now.memory.now self.now.state
            self.now.frame self.now.page) }
    {
        if !ring::ring(self.volume.geometry) | (self.entry.durable == 0) {
            return answer::plain(Mend::Whole);
        }
        self.changed()
    }
}

// What the page needs; frame is the one that is left to upkeep.
pub fn advise(s: State, volume: &[u8], memory: &[u8], frame: u32, page: u32) -> Mended
    ensures { result ≡ mended_of volume.now memory.now s frame page }
{
    match Target::open(s, volume, memory, frame, page) {
        Ok(target) => target.policy(),
        Err(refusal) => answer::plain(Mend::Refused(u32::from(refusal))),
    }
}
