// The checksum of an item, over words: computed, set and compared.
ghost use Rattle.std.specs.Prelude.{◌≡◌, ◌+◌, ◌≤◌, length};
ghost use Rattle.model.specs.Bytes.{field};
ghost use Rattle.model.specs.Checksum.{checksum, checksum_from};
ghost use Rattle.std.proofs.Common.{rules};
ghost use Rattle.sums.specs.Sums.{Summed, Headed};
ghost use Rattle.sums.specs.Terms.{word-next, word-end};

use crate::check::Check;
use crate::partial::Sums;
use crate::terms::Terms;
use crate::{partial, products, terms, word_lanes};
use codec::field;

// The sums of the first 12 bytes: all that a note has.
fn head(s: &[u8]) -> Sums
    requires { 12 ≤ length s.now }
    ensures summed { Summed checksum_from s.now result }
    ensures headed { Headed result }
{
    let mut a: u64 = 1;
    let mut b: u64 = 0;
    for k in 0..6usize {
        a += u64::from(field::two(s, 2 * k));
        b += a;
    }
    Sums { a, b, at: 12 }
}

// The checksum of an item: 12 or 60 bytes, which are 12 and blocks of 48, and whatever else is as short.
fn short(s: &[u8]) -> u32
    requires { (12 ≤ length s.now) × (length s.now ≤ 256) }
    ensures { result ≡ checksum s.now }
{
    let t = head(s);
    if s.len() < 14 {
        return partial::value(t);
    }
    terms::late::<WordSum>(s, word_lanes::blocks(s, t))
}

// The sum over words.
pub struct WordSum;

impl Terms for WordSum {
    ghost WIDTH = { 2 };

    ghost term = { field 2 };

    ghost from = { checksum_from };

    const WIDTH: usize = 2;

    fn term(s: &[u8], at: usize) -> u64 {
        u64::from(field::two(s, at))
    }

    ghost some = { Prim.search rules };

    ghost next = { word-next };

    ghost end = { word-end };
}

// The checksum of bytes; an odd last byte does not count.
pub fn sum(s: &[u8]) -> u32
    ensures { result ≡ checksum s.now }
{
    if s.len() < 12 {
        return terms::stepwise::<WordSum>(s);
    }
    if s.len() == 252 {
        return products::image_sum(s);
    }
    if s.len() <= 256 {
        return short(s);
    }
    if s.len() <= 65536 {
        terms::late::<WordSum>(s, partial::START)
    } else {
        terms::stepwise::<WordSum>(s)
    }
}

impl Check for WordSum {
    ghost of = { checksum };

    fn sum(s: &[u8]) -> u32 {
        sum(s)
    }
}
