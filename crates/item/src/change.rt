// A change of a page's body: its kind's rule, and the change made in place.
ghost use Rattle.std.specs.Prelude.{◌≡◌, true, ◌++◌, ◌+◌, ◌-◌, ◌≤◌, length, take, drop};
ghost use Rattle.model.specs.Change.{change_fits, fits, kind_of, length_of, offset_of, fill_of, apply_change};

use codec::part;
use model::change::Change;

// The kinds of change, by the numbers that a record names them with.
pub const FORMAT: u32 = 1;

pub const PUT: u32 = 2;

pub const SLIDE: u32 = 3;

// The rule, and in it the tests in the layout's order: length, offset, fill.
pub fn fits(kind: u32, length: u32, offset: u32, fill: u32) -> bool
    ensures { result ≡ change_fits kind length offset fill }
{
    match kind {
        FORMAT => (length == 0) & (offset == 0),
        PUT | SLIDE => {
            let room = 244u32.saturating_sub(length);
            ((1 <= length) & (length <= 44)) & ((offset <= room) & (fill == 0))
        }
        _ => false,
    }
}

// A change's kind, length, offset and fill, as a record stores them.
pub(crate) fn numbers(c: Change) -> (u8, u8, u16, u8)
    ensures { (result.0 ≡ kind_of c)
        × (result.1 ≡ length_of c)
        × (result.2 ≡ offset_of c)
        × (result.3 ≡ fill_of c) }
{
    match c {
        Change::Format { fill } => (FORMAT as u8, 0, 0, fill),
        Change::Put { offset, length } => (PUT as u8, length, offset, 0),
        Change::Slide { offset, length } => (SLIDE as u8, length, offset, 0),
    }
}

// A change obeys its kind's rule.
pub fn obeys(c: Change) -> bool
    ensures { result ≡ fits c }
{
    let (kind, length, offset, fill) = numbers(c);
    fits(
        u32::from(kind),
        u32::from(length),
        u32::from(offset),
        u32::from(fill),
    )
}

// Moves the bytes from a place on up by n, the last one first; the last n drop off. No `copy_within`: the library writes
// it so that the compiler finds `memmove` in it (see `codec::part::copy`).
fn raise(s: &mut [u8], at: usize, n: usize)
    requires { at + n ≤ length s.old }
    ensures { s.new
        ≡ take (at + n) s.old ++ take (length s.old - (at + n)) (drop at s.old) }
{
    for i in (at + n..s.len()).rev() {
        s[i] = s[i - n];
    }
}

// Makes a change on a body, with the bytes that a put or a slide brings at the front of the payload.
pub fn apply(c: Change, payload: &[u8], body: &mut [u8])
    requires { (fits c ≡ true) × (length_of c ≤ length payload.now) × (length body.old ≡ 244) }
    ensures { body.new ≡ apply_change c payload.now body.old }
{
    match c {
        Change::Format { fill } => body.fill(fill),
        Change::Put { offset, length } => {
            let n = usize::from(length);
            part::put(body, usize::from(offset), &payload[0..n])
        }
        Change::Slide { offset, length } => {
            let at = usize::from(offset);
            let n = usize::from(length);
            raise(body, at, n);
            part::put(body, at, &payload[0..n])
        }
    }
}
