// The two sums with no lanes and no products: one term after the other, a word or a byte.
ghost use Rattle.std.specs.Prelude.{◌≡◌, ◌+◌, ◌*◌, ◌%◌, ◌≤◌, ◌<◌, List, ℕ, length, drop};
ghost use Rattle.sums.specs.Sums.{Summed};

use crate::partial::{self, Sums};

pub trait Terms {
    ghost WIDTH: { ℕ };

    // The term at a place.
    ghost term: { ℕ → List ℕ → ℕ };

    // The sum of the bytes that are left, from the two sums so far.
    ghost from: { ℕ → ℕ → List ℕ → ℕ };

    // A term's bytes.
    const WIDTH: usize;

    fn term(s: &[u8], at: usize) -> u64
        requires { at + WIDTH ≤ length s.now }
        ensures { (result ≡ term at s.now) × (result ≤ 65535) };

    ghost some: { 1 ≤ WIDTH };

    ghost next: { (a b i : ℕ) (s : List ℕ) → i + WIDTH ≤ length s → from a b (drop i s)
        ≡ from ((a + term i s) % 65535) ((b + (a + term i s) % 65535) % 65535) (drop (i + WIDTH) s) };

    ghost end: { (a b i : ℕ) (s : List ℕ) → length s < i + WIDTH → from a b (drop i s) ≡ b * 65536 + a };
}

// The sum with its remainders taken once, at the end, from sums on.
pub fn late<T: Terms>(s: &[u8], t: Sums) -> u32
    requires s_len_bound { length s.now ≤ 65536 }
    requires summed { Summed T.from s.now t }
    ensures { result ≡ T.from 1 0 s.now }
{
    let mut a = t.a;
    let mut b = t.b;
    let mut i = t.at;
    while T::WIDTH <= s.len() - i {
        a += T::term(s, i);
        b += a;
        i += T::WIDTH;
    }
    partial::value(Sums { a, b, at: i })
}

// The sum with its remainders taken term by term, for any length.
pub fn stepwise<T: Terms>(v: &[u8]) -> u32
    ensures { result ≡ T.from 1 0 v.now }
{
    let mut a: u64 = 1;
    let mut b: u64 = 0;
    let mut i: usize = 0;
    while T::WIDTH <= v.len() - i {
        a = (a + T::term(v, i)) % 65535;
        b = (b + a) % 65535;
        i += T::WIDTH;
    }
    (b * 65536 + a) as u32
}
