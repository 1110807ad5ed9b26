// The word sum in four lanes of 32 bits.
ghost use Rattle.std.specs.Prelude.{◌≡◌, ◌+◌, ◌≤◌, length};
ghost use Rattle.model.specs.Bytes.{field};
ghost use Rattle.model.specs.Checksum.{checksum_from};
ghost use Rattle.sums.specs.Sums.{Summed, Headed};
ghost use Rattle.sums.specs.Words.{Bounded, Stepped, Passed, low, high};

use crate::lanes::{self, Lanes};
use crate::partial::Sums;
use codec::field;

// The word at a place.
fn word(s: &[u8], at: usize) -> u32
    requires { at + 2 ≤ length s.now }
    ensures { (result ≡ field 2 at s.now) × (result ≤ 65535) }
{
    u32::from(field::two(s, at))
}

// Four words.
fn step(l: Lanes<u32>, s: &[u8], at: usize) -> Lanes<u32>
    requires at_in_bounds { (at + 8 ≤ length s.now) × (length s.now ≤ 256) }
    requires bounded { Bounded at l }
    ensures bounded_2 { Bounded (at + 8) result }
    ensures stepped { Stepped s.now at l result }
{
    Lanes {
        x0: l.x0 + word(s, at),
        x1: l.x1 + word(s, at + 2),
        x2: l.x2 + word(s, at + 4),
        x3: l.x3 + word(s, at + 6),
        z0: l.z0 + l.x0,
        z1: l.z1 + l.x1,
        z2: l.z2 + l.x2,
        z3: l.z3 + l.x3,
    }
}

// A block of 48 bytes: what a record has behind its first 12.
fn block(l: Lanes<u32>, s: &[u8], at: usize) -> Lanes<u32>
    requires at_in_bounds { (at + 48 ≤ length s.now) × (length s.now ≤ 256) }
    requires bounded { Bounded at l }
    ensures bounded_2 { Bounded (at + 48) result }
    ensures passed { Passed s.now at l (at + 48) result 24 }
{
    let l1 = step(l, s, at);
    let l2 = step(l1, s, at + 8);
    let l3 = step(l2, s, at + 16);
    let l4 = step(l3, s, at + 24);
    let l5 = step(l4, s, at + 32);
    step(l5, s, at + 40)
}

// The sums with those of the lanes.
fn total(a: u64, b: u64, at: usize, l: Lanes<u32>) -> Sums
    requires { (a ≤ 1048576) × (b ≤ 1073741824) }
    ensures { (result.a ≡ a + low l) × (result.b ≡ b + high l) × (result.at ≡ at) }
{
    let p = u64::from(l.x0) + u64::from(l.x1);
    let q = p + u64::from(l.x2);
    let r = q + u64::from(l.x3);
    let z = u64::from(l.z0) + u64::from(l.z1) + u64::from(l.z2) + u64::from(l.z3);
    Sums {
        a: a + r,
        b: b + 4 * z + (u64::from(l.x0) + p + q + r),
        at,
    }
}

// Goes on in blocks of 48 bytes.
pub fn blocks(s: &[u8], t: Sums) -> Sums
    requires s_len_bound { (length s.now ≤ 256) × Headed t }
    requires summed { Summed checksum_from s.now t }
    ensures { Summed checksum_from s.now result }
{
    let mut l = lanes::none(0);
    let mut b = t.b;
    let mut i = t.at;
    while 48 <= s.len() - i {
        l = block(l, s, i);
        b = b + 24 * t.a;
        i += 48;
    }
    total(t.a, b, i, l)
}
