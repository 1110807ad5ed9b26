// The checksum of a record and of a note, whose sizes are known, tested by two products of its words with weights, and
// that of an image computed by such products. The products are of signed words, so that each word goes in as w - 32768.
// No weight is 0 or a power of two: the compiler then makes `pmaddwd` of the products, where of others it makes shifts
// and sums, which are slower.
ghost use Rattle.std.specs.Prelude.{◌≡◌, ◌+◌, ◌*◌, ◌-◌, ◌%◌, ◌≤◌, eqb, length};
ghost use Rattle.model.specs.Bytes.{field, part};
ghost use Rattle.model.specs.Checksum.{checksum, sealed};
ghost use Rattle.sums.specs.Products.{Minus, Product, Constants, weights, low, high, place_of, above_of};

use codec::field;

// The word at a place, less 32768.
fn flipped(s: &[u8], at: usize) -> i16
    requires { at + 2 ≤ length s.now }
    ensures { Minus result (field 2 at s.now) 32768 }
{
    (field::two(s, at) as i32 - 32768) as i16
}

// WORDS words with the weights top, top - 1, ..: expanded where it is called, so that the compiler knows both.
#[inline(always)]
fn product<const WORDS: usize>(r: &[u8], top: usize) -> i32
    requires sized { length r.now ≡ 2 * WORDS }
    requires weighed { (WORDS ≤ 32) × (WORDS ≤ top) × (top ≤ 97) }
    ensures { Product top r.now WORDS result }
{
    let mut t: i32 = 0;
    for i in 0..WORDS {
        t += i32::from(flipped(r, 2 * i)) * (top - i) as i32;
    }
    t
}

// A number is a multiple of 65535, the sums' modulus.
fn multiple_of_modulus(x: u32) -> bool
    ensures { result ≡ eqb (x % 65535) 0 }
{
    x % 65535 == 0
}

// Of words their sum, and twice the sum of what it was after each of them, both less a number that is known. Each is
// the two products' difference or made of their sum: neither product may be added up into another sum, or the compiler
// takes the products apart.
#[derive(Clone, Copy)]
struct Pair {
    all: i32,
    twice: i32,
}

#[inline(always)]
fn weigh<const WORDS: usize>(r: &[u8]) -> Pair
    requires sized { (length r.now ≡ 2 * WORDS) × (WORDS ≤ 32) }
    ensures all { Minus result.all (low r.now WORDS) (32768 * WORDS) }
    ensures twice { Minus result.twice (2 * high r.now WORDS + 133 * (32768 * WORDS))
        (32768 * (weights (65 + WORDS) WORDS + weights (64 + WORDS) WORDS) + 4 * low r.now WORDS) }
{
    let p = product::<WORDS>(r, 65 + WORDS);
    let q = product::<WORDS>(r, 64 + WORDS);
    let all = p - q;
    let twice = p + q - 133 * all;
    Pair { all, twice }
}

// An item of WORDS words, the last two its checksum, has a right one. With w0 to w31 the words of a record, a = 1 + w0
// + .. + w29 and b = 30 + 30 w0 + .. + w29, it is right where a - w30 and b - w31 are multiples of 65535, and neither
// w30 nor w31 is 65535. What is tested first is 2 (b - w31 + 65535), and then a - w30 + 3 * 65535: neither is below 0.
// HIGH and LOW make up for the 32768 that was taken from each word (`Constants`).
#[inline(always)]
fn holds<const WORDS: usize, const HIGH: i32, const LOW: i32>(r: &[u8]) -> bool
    requires sized { length r.now ≡ 2 * WORDS }
    requires constants { Constants WORDS HIGH LOW }
    ensures { result ≡ sealed (2 * WORDS - 4) r.now }
{
    let s = weigh::<WORDS>(r);
    if !multiple_of_modulus((s.twice + HIGH) as u32) {
        return false;
    }
    let c = field::four(r, 2 * WORDS - 4);
    let low = c % 65536;
    let high = c / 65536;
    if !multiple_of_modulus((s.all + LOW) as u32 - 2 * low - high) {
        return false;
    }
    (low != 65535) & (high != 65535)
}

// A record of 64 bytes has a right checksum.
pub fn record_holds(r: &[u8]) -> bool
    requires { length r.now ≡ 64 }
    ensures { result ≡ sealed 60 r.now }
{
    holds::<32, 30539834, 1245182>(r)
}

// A note of 16 bytes, as a record.
pub fn note_holds(r: &[u8]) -> bool
    requires { length r.now ≡ 16 }
    ensures { result ≡ sealed 12 r.now }
{
    holds::<8, 1441802, 458750>(r)
}

// The two sums of 32 words of an image.
#[derive(Clone, Copy)]
pub struct Words {
    pub a: u32,
    pub b: u32,
}

// Those from a place on. Twice the second sum less twice the last word is tested of a record; here half of it is taken.
fn sums_at(s: &[u8], at: usize) -> Words
    requires { at + 64 ≤ length s.now }
    ensures { (result.a ≡ low (part s.now at 64) 32) × (result.b ≡ high (part s.now at 64) 32) }
{
    let end = at + 64;
    let r = &s[at..end];
    let p = weigh::<32>(r);
    let a = (p.all + 1048576) as u32;
    let b = (p.twice + 30539774) as u32 / 2 + 2 * a - 65535;
    Words { a, b }
}

// Where part k of an image starts, 64 bytes each: the last of four starts four bytes early.
fn place(k: usize) -> usize
    ensures { (result ≡ place_of k) × (result ≤ 188) }
{
    if k < 3 { 64 * k } else { 188 }
}

// What the words of part k weigh besides 32 to 1.
fn above(k: usize) -> u32
    ensures { (result ≡ above_of k) × (result ≤ 94) }
{
    if k < 3 { 94 - 32 * (k as u32) } else { 0 }
}

// The remainder of a sum by 65535, without a division.
fn folded(x: u32) -> u32
    requires { x ≤ 4294836224 }
    ensures { (result ≡ x % 65535) × (result ≤ 65534) }
{
    let y = x % 65536 + x / 65536;
    if 65535 <= y { y - 65535 } else { y }
}

// The checksum of an image's 252 bytes, in four parts of 32 words. The two words that are in two parts count once.
pub fn image_sum(s: &[u8]) -> u32
    requires { length s.now ≡ 252 }
    ensures { result ≡ checksum s.now }
{
    let v = u32::from(field::two(s, 188));
    let w = u32::from(field::two(s, 190));
    let mut a: u32 = 1;
    let mut b: u32 = 126;
    for k in 0..4usize {
        let t = sums_at(s, place(k));
        a += t.a;
        b += t.b + above(k) * t.a;
    }
    folded(b - 32 * v - 31 * w) * 65536 + folded(a - v - w)
}
