// Where a section's run may start, guessed from the numbers in a few slots. Nothing rests on the guess: a sweep from
// there finds each slot whole and with the number that follows, or the section is read by the two passes.
ghost use Rattle.std.specs.Prelude.{◌≡◌, true, ◌≤◌, ◌<◌};
ghost use Rattle.model.specs.Bytes.{field};
ghost use Rattle.section.specs.Section.{slot_bytes};
ghost use Rattle.section.specs.Sweep.{Guessed, closed_of, begun_of};

use crate::Section;
use codec::field;
use sums::check::Check;
use sums::checksum::WordSum;

// A slot, counted from 0, and the number that it should hold.
#[derive(Clone, Copy)]
pub struct Guess {
    pub slot: u32,
    pub first: u32,
}

impl<'a> Section<'a> {
    // The number at the start of a slot.
    fn numbered(&self, slot: u32) -> u32
        requires { slot < self.now.extent.slots }
        ensures { result ≡ field 4 0 (slot_bytes self.now.bytes.now self.now.extent slot) }
    {
        field::u32_at(self.item(slot), 0)
    }

    // A slot behind slot 0 whose number is below that of slot 0, by halves: the first such one where the numbers rise;
    // the number of slots where there is none. The library's `partition_point` goes over a slice's elements, which
    // slots of two sizes are not.
    fn seam(&self, top: u32) -> u32
        requires { 1 ≤ self.now.extent.slots }
        ensures { (1 ≤ result) × (result ≤ self.now.extent.slots) }
    {
        let mut low: u32 = 0;
        let mut high = self.extent.slots;
        while low + 1 < high {
            let middle = low + (high - low) / 2;
            if top <= self.numbered(middle) {
                low = middle;
            } else {
                high = middle;
            }
        }
        high
    }

    // A guess, or one later where its slot is not whole: a store that was cut leaves the slot of the oldest number so.
    fn past_torn(&self, u: Guess) -> Guess
        requires ring_value { (self.now.extent.ring ≡ true) × (1 ≤ self.now.extent.slots) }
        requires guessed { Guessed self.now.extent u × (u.first < 4294960000) }
        ensures { Guessed self.now.extent result }
    {
        if WordSum::holds(self.item(u.slot), self.extent.size) {
            return u;
        }
        Guess {
            slot: crate::after(u.slot, self.extent.slots),
            first: u.first + 1,
        }
    }

    // Slot 0 and number 1 where the section is no ring or has not turned; else the seam, or the slot behind it where
    // that is torn, and the number that it should hold.
    pub fn guess_start(&self) -> Guess
        ensures { Guessed self.now.extent result }
    {
        let s = self.extent;
        let none = Guess { slot: 0, first: 1 };
        if !s.ring | (s.slots == 0) {
            return none;
        }
        let top = self.numbered(0);
        if (top <= s.slots) | (4294960000 <= top) {
            return none;
        }
        if (top - 1) % s.slots != 0 {
            return none;
        }
        let seam = self.seam(top);
        let u = Guess {
            slot: crate::after(seam - 1, s.slots),
            first: top - s.slots + seam,
        };
        self.past_torn(u)
    }

    // A run of `count` numbers from `first` on is all that the section holds: it fills the slots; or, from above 1 on,
    // all but the one behind it; or it starts at 1 and what follows the slot behind it is zero.
    pub fn closed(&self, first: u32, count: u32) -> bool
        ensures { result ≡ closed_of self.now.bytes.now self.now.extent first count }
    {
        let slots = self.extent.slots;
        if count == slots {
            return true;
        }
        if first != 1 {
            return (1 < first) & ((0 < count) & (u64::from(count) + 1 == u64::from(slots)));
        }
        self.rest(count)
    }
}

// The run start: of an empty ring 2.
pub fn begun(ring: bool, first: u32, count: u32) -> u64
    ensures { result ≡ begun_of ring first count }
{
    if ring & (count == 0) {
        return 2;
    }
    u64::from(first)
}

// Where the slot behind one that ends at a place starts, in a section from `at` to `stop`.
pub fn onward(end: usize, at: usize, stop: usize) -> usize
    ensures { (end ≡ stop → result ≡ at) × ((end ≡ stop → ⊥) → result ≡ end) }
{
    if end == stop { at } else { end }
}
