// The byte sum in eight lanes, two times four, as the word sum in four (`word_lanes`). They have 16 bits: after 120
// bytes they are added to the sums.
ghost use Rattle.std.specs.Prelude.{◌≡◌, ◌+◌, ◌≤◌, ◌<◌, length};
ghost use Rattle.model.specs.Checksum.{byte_sum_from};
ghost use Rattle.sums.specs.Sums.{Summed};
ghost use Rattle.sums.specs.Quads as quads;

use crate::lanes::{self, Lanes};
use crate::partial::Sums;

// Four bytes, k behind a place. (Not one function with that of words: bounds, widths and reads differ.)
fn step(l: Lanes<u16>, s: &[u8], at: usize, k: usize) -> Lanes<u16>
    requires k_in_bounds { (at + k + 4 ≤ length s.now) × (k ≤ 112) }
    requires bounded { quads.Bounded k l }
    ensures bounded_2 { quads.Bounded (k + 8) result }
    ensures stepped { quads.Stepped s.now (at + k) l result }
{
    let i = at + k;
    Lanes {
        x0: l.x0 + u16::from(s[i]),
        x1: l.x1 + u16::from(s[i + 1]),
        x2: l.x2 + u16::from(s[i + 2]),
        x3: l.x3 + u16::from(s[i + 3]),
        z0: l.z0 + l.x0,
        z1: l.z1 + l.x1,
        z2: l.z2 + l.x2,
        z3: l.z3 + l.x3,
    }
}

// What four lanes add to the first sum.
fn low(l: Lanes<u16>) -> u64
    ensures { (result ≡ quads.low l) × (result ≤ 262140) }
{
    u64::from(l.x0) + u64::from(l.x1) + u64::from(l.x2) + u64::from(l.x3)
}

// And to the second.
fn high(l: Lanes<u16>) -> u64
    ensures { (result ≡ quads.high l) × (result ≤ 2752470) }
{
    let z = u64::from(l.z0) + u64::from(l.z1) + u64::from(l.z2) + u64::from(l.z3);
    8 * z + (4 * u64::from(l.x0) + 3 * u64::from(l.x1) + 2 * u64::from(l.x2) + u64::from(l.x3))
}

// A block of 120 bytes.
fn block(s: &[u8], t: Sums) -> Sums
    requires at_in_bounds { (t.at + 120 ≤ length s.now) × (length s.now ≤ 65536) }
    requires summed { Summed byte_sum_from s.now t }
    ensures summed_2 { Summed byte_sum_from s.now result }
    ensures at_lt_at { t.at < result.at }
{
    let mut l = lanes::none(0);
    let mut m = lanes::none(0);
    let mut b = t.b;
    let mut k: usize = 0;
    while k <= 112 {
        l = step(l, s, t.at, k);
        m = step(m, s, t.at + 4, k);
        b = b + 8 * t.a;
        k += 8;
    }
    let p = low(l);
    Sums {
        a: t.a + p + low(m),
        b: b + high(l) + high(m) + 4 * p,
        at: t.at + k,
    }
}

// Goes on in blocks of 120 bytes: two of them and 12 bytes are an image's.
pub fn blocks(s: &[u8], t: Sums) -> Sums
    requires s_len_bound { length s.now ≤ 65536 }
    requires summed { Summed byte_sum_from s.now t }
    ensures { Summed byte_sum_from s.now result }
{
    let mut u = t;
    while 120 <= s.len() - u.at {
        u = block(s, u);
    }
    u
}
