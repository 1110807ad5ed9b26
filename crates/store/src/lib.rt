// The page store: a state, and the calls on it, Make under either heading. Make, Restart and Inspect
// take no state; the others take it by value and give the next one back. `perform` makes any of those by a command: it
// is the step that histories, and so the theorems about them, are made of.
//
// Each call works on any volume, memory, buffer and state. Its contract is an equation for what it gives back and one
// for each slice that it may write, by the outcome that `model::specs::Calls` defines. So each rules out a refusal out
// of the table's order, and a refused call that changes a byte or the state. What else it rules out stands beside it.
#![tactic(auto)]

ghost use Rattle.std.specs.Prelude.{◌≡◌, []};
ghost use Rattle.model.specs.Refused.{error_number};
ghost use Rattle.model.specs.Refusals.{state_rows};
ghost use Rattle.model.specs.Tables.{first_of};
ghost use Rattle.store.specs.Store.{wrapped, performed};
ghost use Rattle.model.specs.declared.geometry.Heading.TheVariants.{First, Second};
ghost use Rattle.model.specs.Outcome.{reply_of, volume_after};
ghost use Rattle.model.specs.Calls.{begin_of, load_of, change_call, force_of, write_of, backup_of, release_of};
ghost use Rattle.model.specs.Calls.{note_call, start_carry_of, restamp_of, finish_carry_of};
ghost use Rattle.model.specs.Restart.{make_of, restart_of, inspect_of};

use model::answer::{Answer, Refusal, Reply};
use model::change::Change;
use model::command::Command;
use model::state::State;
use persist::backup;

#[derive(Clone, Copy)]
pub struct Store {
    pub state: State,
}

// What a call on the state gives back: its answer, and the store with the next state.
#[derive(Clone, Copy)]
pub struct Returned {
    pub answer: Answer,
    pub store: Store,
}

impl From<Reply> for Returned {
    ghost from_gives = { λ r x. x ≡ wrapped r };

    fn from(r: Reply) -> Returned {
        Returned {
            answer: r.answer,
            store: Store { state: r.state },
        }
    }
}

impl Store {
    // The refusal of a call on the state that its own rows do not give.
    fn checked(&self, volume: &[u8], memory: &[u8]) -> Result<(), Refusal>
        ensures { error_number result ≡ first_of (state_rows volume.now memory.now self.now.state []) }
    {
        state::refusal::refusal(self.state, volume, memory.len())
    }

    // Writes headings and zeros, the second heading first. Ruled out: a byte of the old volume left; counts taken with
    // another length than theirs; the first heading.
    pub fn make(volume: &mut [u8], pages: u32, slots: u32, records: u32, notes: u32) -> Answer
        ensures answer { result ≡ (make_of Second volume.old pages slots records notes).answer }
        ensures volume { volume.new
            ≡ (make_of Second volume.old pages slots records notes).volume }
    {
        volume::make::make(volume, pages, slots, records, notes)
    }

    // The same under the first heading, for volumes that older boxes read. Ruled out: the second heading; a refusal of
    // counts that Make takes.
    pub fn make_first(volume: &mut [u8], pages: u32, slots: u32, records: u32, notes: u32) -> Answer
        ensures answer { result ≡ (make_of First volume.old pages slots records notes).answer }
        ensures volume { volume.new
            ≡ (make_of First volume.old pages slots records notes).volume }
    {
        volume::make::make_first(volume, pages, slots, records, notes)
    }

    // Gives the state that the volume holds, and zeroes the memory. Ruled out: a state of zeros for a volume with
    // durable records; a durable count past a torn record.
    pub fn restart(volume: &[u8], memory: &mut [u8]) -> Returned
        ensures outcome { result ≡ wrapped (reply_of (restart_of volume.now memory.old)) }
        ensures memory { memory.new ≡ (restart_of volume.now memory.old).memory }
    {
        Returned::from(restart::restart(volume, memory))
    }

    // Makes the call that the command names. Ruled out: a call that is not the command's; its payload exchanged for
    // another; a volume written by a call that stores nothing.
    pub fn perform(
        self,
        volume: &mut [u8],
        memory: &mut [u8],
        command: Command,
        payload: [u8; 44],
    ) -> Returned
        ensures outcome { result ≡ wrapped (reply_of (performed self volume.old memory.old command payload)) }
        ensures memory { memory.new
            ≡ (performed self volume.old memory.old command payload).memory }
        ensures volume { volume.new
            ≡ volume_after volume.old (performed self volume.old
            memory.old command payload).stored }
    {
        // The rows 1 and 2 are tested once, before the call is chosen.
        let checked = self.checked(volume, memory);
        let s = self.state;
        let reply = match command {
            Command::Begin { page, frame, fill } => {
                append::begin::begin(s, checked, volume, memory, page, frame, fill)
            }
            Command::Load { page, frame } => load::load(s, checked, volume, memory, page, frame),
            Command::Change { page, change } => {
                append::change::change(s, checked, volume, memory, page, change, payload)
            }
            Command::Force => force::force(s, checked, volume, memory),
            Command::Write { page } => persist::write::write(s, checked, volume, memory, page),
            Command::Backup { page, slot } => {
                backup::backup(s, checked, volume, memory, page, slot)
            }
            Command::Release { page } => load::release::release(s, checked, volume, memory, page),
            Command::Note => persist::note::note(s, checked, volume, memory),
            Command::StartCarry => convert::start::start(s, checked, volume, memory),
            Command::Restamp => convert::restamp::restamp(s, checked, volume, memory),
            Command::FinishCarry => convert::finish::finish(s, checked, volume, memory),
        };
        Returned::from(reply)
    }

    // Begins a blank page in a frame. Ruled out: 12 on an empty log; a record given that will displace one that is
    // still needed; a page with a pending change that leaves its frame.
    pub fn begin(
        self,
        volume: &[u8],
        memory: &mut [u8],
        page: u32,
        frame: u32,
        fill: u8,
    ) -> Returned
        ensures outcome { result
            ≡ wrapped (reply_of (begin_of volume.now memory.old self.state page frame fill)) }
        ensures memory { memory.new
            ≡ (begin_of volume.now memory.old self.state page frame fill).memory }
    {
        let checked = self.checked(volume, memory);
        Returned::from(append::begin::begin(self.state, checked, volume, memory, page, frame, fill))
    }

    // Brings a page into a frame, repaired. Ruled out: the disk's image handed over unrepaired; a slide replayed on an
    // image that has it.
    pub fn load(self, volume: &[u8], memory: &mut [u8], page: u32, frame: u32) -> Returned
        ensures outcome { result ≡ wrapped (reply_of (load_of volume.now memory.old self.state page frame)) }
        ensures memory { memory.new
            ≡ (load_of volume.now memory.old self.state page frame).memory }
    {
        let checked = self.checked(volume, memory);
        Returned::from(load::load(self.state, checked, volume, memory, page, frame))
    }

    // Changes a page that a frame holds. Ruled out: a record that names the page's last durable record and skips its
    // pending ones; a slide that overwrites the bytes it should move up.
    pub fn change(
        self,
        volume: &[u8],
        memory: &mut [u8],
        page: u32,
        change: Change,
        payload: [u8; 44],
    ) -> Returned
        ensures outcome { result
            ≡ wrapped (reply_of (change_call volume.now memory.old
            self.state page change payload)) }
        ensures memory { memory.new
            ≡ (change_call volume.now memory.old self.state page change payload).memory }
    {
        let checked = self.checked(volume, memory);
        Returned::from(append::change::change(
            self.state, checked, volume, memory, page, change, payload,
        ))
    }

    // Stores the oldest pending record. Ruled out: Nothing with records pending; the count lowered and no record
    // stored.
    pub fn force(self, volume: &mut [u8], memory: &[u8]) -> Returned
        ensures outcome { result ≡ wrapped (reply_of (force_of volume.old memory.now self.state)) }
        ensures volume { volume.new
            ≡ volume_after volume.old (force_of volume.old memory.now
            self.state).stored }
    {
        let checked = self.checked(volume, memory);
        Returned::from(force::force(self.state, checked, volume, memory))
    }

    // Stores a dirty page's image and leaves a note of it pending. Ruled out: an image stored ahead of its record; a
    // checksum left zero.
    pub fn write(self, volume: &mut [u8], memory: &[u8], page: u32) -> Returned
        ensures outcome { result ≡ wrapped (reply_of (write_of volume.old memory.now self.state page)) }
        ensures volume { volume.new
            ≡ volume_after volume.old (write_of volume.old memory.now
            self.state page).stored }
    {
        let checked = self.checked(volume, memory);
        Returned::from(persist::write::write(self.state, checked, volume, memory, page))
    }

    // Stores a page's image in a slot and leaves a note of it pending. Ruled out: a slot that the index names
    // overwritten; the index changed before the note is stored.
    pub fn backup(self, volume: &mut [u8], memory: &[u8], page: u32, slot: u32) -> Returned
        ensures outcome { result ≡ wrapped (reply_of (backup_of volume.old memory.now self.state page slot)) }
        ensures volume { volume.new
            ≡ volume_after volume.old (backup_of volume.old memory.now
            self.state page slot).stored }
    {
        let checked = self.checked(volume, memory);
        Returned::from(backup::backup(self.state, checked, volume, memory, page, slot))
    }

    // Lets go of a page: its frame is empty, nothing is stored. Ruled out: a page with a pending change let go; a dirty
    // page refused.
    pub fn release(self, volume: &[u8], memory: &[u8], page: u32) -> Returned
        ensures outcome { result ≡ wrapped (reply_of (release_of volume.now memory.now self.state page)) }
    {
        let checked = self.checked(volume, memory);
        Returned::from(load::release::release(self.state, checked, volume, memory, page))
    }

    // Stores the pending note and enters it in the index. Ruled out: Nothing with a note pending; a note stored in
    // another number's slot.
    pub fn note(self, volume: &mut [u8], memory: &[u8]) -> Returned
        ensures outcome { result ≡ wrapped (reply_of (note_call volume.old memory.now self.state)) }
        ensures volume { volume.new
            ≡ volume_after volume.old (note_call volume.old memory.now
            self.state).stored }
    {
        let checked = self.checked(volume, memory);
        Returned::from(persist::note::note(self.state, checked, volume, memory))
    }

    // Begins to carry a volume over: the first heading becomes the third. Ruled out: the second heading stored at once;
    // done on a volume that has another heading than the first.
    pub fn start_carry(self, volume: &mut [u8], memory: &[u8]) -> Returned
        ensures outcome { result ≡ wrapped (reply_of (start_carry_of volume.old memory.now self.state)) }
        ensures volume { volume.new
            ≡ volume_after volume.old (start_carry_of volume.old memory.now
            self.state).stored }
    {
        let checked = self.checked(volume, memory);
        Returned::from(convert::start::start(self.state, checked, volume, memory))
    }

    // Gives the first image that passes only the old sum the byte sum. Ruled out: a failing image sealed; Nothing with
    // such an image left.
    pub fn restamp(self, volume: &mut [u8], memory: &[u8]) -> Returned
        ensures outcome { result ≡ wrapped (reply_of (restamp_of volume.old memory.now self.state)) }
        ensures volume { volume.new
            ≡ volume_after volume.old (restamp_of volume.old memory.now
            self.state).stored }
    {
        let checked = self.checked(volume, memory);
        Returned::from(convert::restamp::restamp(self.state, checked, volume, memory))
    }

    // Ends it: the second heading. Ruled out: done while an image passes only the old sum; 20 on a volume that has
    // another heading.
    pub fn finish_carry(self, volume: &mut [u8], memory: &[u8]) -> Returned
        ensures outcome { result ≡ wrapped (reply_of (finish_carry_of volume.old memory.now self.state)) }
        ensures volume { volume.new
            ≡ volume_after volume.old (finish_carry_of volume.old memory.now
            self.state).stored }
    {
        let checked = self.checked(volume, memory);
        Returned::from(convert::finish::finish(self.state, checked, volume, memory))
    }

    // Rebuilds a page from the durable records into a buffer of 256 bytes. Ruled out: the disk's image handed over
    // unrepaired; 7 for a page that has a durable record; a made-up count.
    pub fn inspect(volume: &[u8], page: u32, buffer: &mut [u8]) -> Answer
        ensures answer { result ≡ (inspect_of volume.now page buffer.old).answer }
        ensures buffer { buffer.new ≡ (inspect_of volume.now page buffer.old).buffer }
    {
        inspect::inspect(volume, page, buffer)
    }
}
