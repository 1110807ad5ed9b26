// A log or a section of notes as a ring: which volumes have one, how far its numbers go, and the slot of a number.
ghost use Rattle.std.specs.Prelude.{◌≡◌, ◌-◌, ◌%◌, ◌≤◌, ◌<◌};
ghost use Rattle.model.specs.Geometry.{ring, most, most_notes, slot_of};

use model::geometry::{Geometry, SECOND_TAG};

// The log and the notes are rings: the second heading and at least two log slots.
pub fn ring(g: Geometry) -> bool
    ensures { result ≡ ring g }
{
    (g.tag == SECOND_TAG) & (2 <= g.records)
}

// The last number that a log record may have.
pub fn most(g: Geometry) -> u32
    ensures { result ≡ most g }
{
    if ring(g) { 4294967295 } else { g.records }
}

// The last number that a note may have.
pub fn most_notes(g: Geometry) -> u32
    ensures { result ≡ most_notes g }
{
    if ring(g) { 4294967295 } else { g.notes }
}

// How many numbers come before n; 0 has none, as 1.
fn before(n: u32) -> u32
    ensures { result ≡ n - 1 }
{
    if n == 0 { 0 } else { n - 1 }
}

// A number of items before, in turns of `slots`: before the first turn there is nothing to divide, and a division is
// slow.
pub fn turned(b: u32, slots: u32) -> u32
    requires { 1 ≤ slots }
    ensures { (result ≡ b % slots) × (result < slots) }
{
    if b < slots { b } else { b % slots }
}

// The slot of number n in a section of `slots` slots; 0 has the slot of 1.
pub fn slot_of(slots: u32, n: u32) -> u32
    requires { 1 ≤ slots }
    ensures { (result ≡ slot_of slots n) × (result ≤ slots) }
{
    turned(before(n), slots) + 1
}
