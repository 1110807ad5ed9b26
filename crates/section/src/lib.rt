// A section of a volume, its log or its notes: its whole slots, and the run of numbers that they hold.
#![tactic(auto)]

ghost use Rattle.std.specs.Prelude.{◌≡◌, true, cond, suc, ◌+◌, ◌-◌, ◌*◌, ◌%◌, ◌≤◌, ◌<◌, length};
ghost use Rattle.model.specs.Bytes as bytes;
ghost use Rattle.model.specs.Checksum.{sealed};
ghost use Rattle.model.specs.Scan as scans;
ghost use Rattle.section.specs.Section.{Placed, slot_bytes, highest_at, front_at, front_in, slots_in, run_in};

pub mod guess;

use codec::{field, part};
use sums::check::Check;
use sums::checksum::WordSum;
use volume::ring;

// Where a section lies: whether it is a ring, where its slots start, an item's bytes before its checksum, and how many
// slots it has.
#[derive(Clone, Copy)]
pub struct Extent {
    pub ring: bool,
    pub at: usize,
    pub size: usize,
    pub slots: u32,
}

// A volume's bytes and where in them the section lies.
#[derive(Clone, Copy)]
pub struct Section<'a> {
    pub bytes: &'a [u8],
    pub extent: Extent,
    pub ghost placed: { Placed bytes.now extent },
}

// The numbers that a section holds: the first, and how many were ever given, which is the last; none where the first is
// above it. And how many of its slots are whole before the first that is not: these are not summed again.
#[derive(Clone, Copy)]
pub struct Run {
    pub first: u64,
    pub count: u32,
    pub front: u32,
}

// How many slots of a section are whole before the first that is not, and the highest number in these.
#[derive(Clone, Copy)]
pub struct Front {
    pub slots: u32,
    pub top: u32,
}

// The slot of a run's first number, counted from 0, of so many.
pub fn start(first: u64, slots: u32) -> u32
    requires { 1 ≤ first }
    ensures { 1 ≤ slots → result ≡ (first - 1) % slots }
{
    if slots == 0 {
        return 0;
    }
    let b = first - 1;
    let all = u64::from(slots);
    if b < all {
        return b as u32;
    }
    (b % all) as u32
}

// The slot behind a slot: a step takes no division.
pub fn after(slot: u32, slots: u32) -> u32
    requires { slot < slots }
    ensures { result ≡ (slot + 1) % slots }
{
    let next = slot + 1;
    if next == slots { 0 } else { next }
}

// The item of a slot has a right checksum: it need not be summed again where the slot is at the whole front.
pub fn whole(item: &[u8], size: usize, slot: u32, front: u32) -> bool
    requires { slot < front → sealed size item.now ≡ true }
    ensures { result ≡ sealed size item.now }
{
    slot < front || WordSum::holds(item, size)
}

// The number of an item whose checksum is right, else 0.
fn number(item: &[u8], n: usize) -> u32
    ensures { result ≡ cond (sealed n item.now) (bytes.field 4 0 item.now) 0 }
{
    if WordSum::holds(item, n) {
        field::u32_at(item, 0)
    } else {
        0
    }
}

impl<'a> Section<'a> {
    // The bytes of a slot, counted from 0.
    pub fn item(&self, slot: u32) -> &'a [u8]
        requires { slot < self.now.extent.slots }
        ensures { result.now ≡ slot_bytes self.now.bytes.now self.now.extent slot }
    {
        let s = self.extent;
        let from = s.at + (s.size + 4) * (slot as usize);
        let end = from + (s.size + 4);
        &self.bytes[from..end]
    }

    // The whole front.
    fn front(&self) -> Front
        ensures { result ≡ front_at self.now.extent.size self.now.bytes.now self.now.extent.at self.now.extent.slots }
    {
        let s = self.extent;
        let mut top = 0;
        for slot in 0..s.slots {
            let item = self.item(slot);
            if !WordSum::holds(item, s.size) {
                return Front { slots: slot, top };
            }
            top = top.max(field::u32_at(item, 0));
        }
        Front {
            slots: s.slots,
            top,
        }
    }

    // The highest number in a whole slot.
    fn highest(&self, front: Front) -> u32
        requires { front ≡ front_at self.now.extent.size self.now.bytes.now self.now.extent.at self.now.extent.slots }
        ensures { result ≡ highest_at self.now.extent.size self.now.bytes.now self.now.extent.at self.now.extent.slots }
    {
        let s = self.extent;
        let mut top = front.top;
        for slot in front.slots..s.slots {
            top = top.max(number(self.item(slot), s.size));
        }
        top
    }

    // How many numbers were given: in a ring the highest in a whole slot.
    fn count(&self, front: Front) -> u32
        requires { front ≡ front_at self.now.extent.size self.now.bytes.now self.now.extent.at self.now.extent.slots }
        ensures { result ≡ scans.count_in self.now.bytes.now (slots_in self.now.bytes.now self.now.extent) }
    {
        if self.extent.ring {
            self.highest(front)
        } else {
            front.slots
        }
    }

    // The slot that the number after k goes to is whole; of no slots none is. It is not summed where it is known to be
    // at the whole front.
    fn next(&self, k: u32, front: u32) -> bool
        requires { front ≤ front_in self.now.bytes.now self.now.extent }
        ensures { result
            ≡ sealed self.now.extent.size
            (slot_bytes self.now.bytes.now self.now.extent (k % self.now.extent.slots)) }
    {
        let s = self.extent;
        if s.slots == 0 {
            return false;
        }
        let place = ring::turned(k, s.slots);
        whole(self.item(place), s.size, place, front)
    }

    // The run start, with n numbers given: of a ring max(1, n - slots + 1), or one later if that slot is not whole;
    // `front` slots are known to be.
    pub fn first(&self, n: u32, front: u32) -> u64
        requires { front ≤ front_in self.now.bytes.now self.now.extent }
        ensures { result ≡ scans.first_in (slots_in self.now.bytes.now self.now.extent) n }
    {
        if !self.extent.ring {
            return 1;
        }
        let below = n.saturating_sub(self.extent.slots);
        if self.next(below, front) {
            u64::from(below) + 1
        } else {
            u64::from(below) + 2
        }
    }

    // The numbers that the section holds.
    pub fn held(&self) -> Run
        ensures { result ≡ run_in self.now.bytes.now self.now.extent }
    {
        let front = self.front();
        let count = self.count(front);
        Run {
            first: self.first(count, front.slots),
            count,
            front: front.slots,
        }
    }

    // The slots past slot n + 1 are zero.
    fn rest(&self, n: u32) -> bool
        ensures { result
            ≡ scans.rest_zero (self.now.extent.size + 4) self.now.extent.slots self.now.bytes.now
            self.now.extent.at n }
    {
        let s = self.extent;
        rest(self.bytes, s.at, s.size + 4, s.slots as usize, n as usize)
    }

    // What follows a run: past the turn nothing is asked; before it the next slot is not whole, the run starts at 1,
    // and the rest is zero.
    pub fn ends(&self, r: Run) -> bool
        ensures { result
            ≡ scans.ends_in self.now.bytes.now (slots_in self.now.bytes.now self.now.extent) r.first r.count }
    {
        let n = r.count;
        if self.extent.slots <= n {
            return true;
        }
        let starts = (n == 0) | (r.first == 1);
        (!self.next(n, 0) & starts) & self.rest(n)
    }
}

// How many numbers a run has.
pub fn span(r: Run) -> u32
    requires { 1 ≤ r.first }
    ensures { result ≡ suc r.count - r.first }
{
    let count = u64::from(r.count);
    if r.first <= count {
        (count - r.first + 1) as u32
    } else {
        0
    }
}

// The number at place i of a run.
pub fn nth(first: u64, i: u32) -> u32
    requires { first + i ≤ 4294967295 }
    ensures { result ≡ first + i }
{
    (first + u64::from(i)) as u32
}

// The slots past slot n + 1 are zero, of `count` slots of `size` bytes that start at a place.
pub fn rest(volume: &[u8], at: usize, size: usize, count: usize, n: usize) -> bool
    requires { at + size * count ≤ length volume.now }
    ensures { result ≡ scans.rest_zero size count volume.now at n }
{
    if count <= n {
        return true;
    }
    let from = at + size * (n + 1);
    let end = at + size * count;
    part::zero(&volume[from..end])
}
