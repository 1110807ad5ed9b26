// Make: a volume of headings and zeros, under the second heading; and the Make of the first.
ghost use Rattle.std.specs.Prelude.{◌≡◌, length};
ghost use Rattle.model.specs.Geometry.{length_for, empty_volume};
ghost use Rattle.model.specs.Restart.{make_of};
ghost use Rattle.model.specs.declared.geometry.Heading.TheVariants.{First, Second};

use crate::heading;
use codec::{field, part};
use model::answer::{Answer, Refusal};
use model::geometry::Heading;

// Writes headings and zeros: the zeros first, then each heading, from the last one down.
fn write(v: &mut [u8], h: Heading, p: u32, b: u32, l: u32, n: u32)
    requires { length v.old ≡ length_for p b l n }
    ensures { v.new ≡ empty_volume h p b l n }
{
    let slots = 8 + 256 * (p as usize);
    let records = 12 + 256 * (p as usize) + 256 * (b as usize);
    let notes = 16 + 256 * (p as usize) + 256 * (b as usize) + 64 * (l as usize);
    v.fill(0);
    field::put_u32(v, notes, n);
    field::put_u32(v, records, l);
    field::put_u32(v, slots, b);
    field::put_u32(v, 4, p);
    let magic = heading::magic_bytes(h);
    part::put(v, 0, &magic);
}

// Makes a volume under a heading with these counts, if they may be and its length is theirs.
fn make_under(v: &mut [u8], h: Heading, p: u32, b: u32, l: u32, n: u32) -> Answer
    ensures { (result ≡ (make_of h v.old p b l n).answer)
        × (v.new ≡ (make_of h v.old p b l n).volume) }
{
    let fits = heading::counts(p, b, l, n) & (v.len() == heading::size(p, b, l, n));
    if !fits {
        return Answer::from(Refusal::BadVolume);
    }
    write(v, h, p, b, l, n);
    Answer::Done
}

// Make: the second heading.
pub fn make(v: &mut [u8], p: u32, b: u32, l: u32, n: u32) -> Answer
    ensures { (result ≡ (make_of Second v.old p b l n).answer)
        × (v.new ≡ (make_of Second v.old p b l n).volume) }
{
    make_under(v, Heading::Second, p, b, l, n)
}

// The Make of the first heading.
pub fn make_first(v: &mut [u8], p: u32, b: u32, l: u32, n: u32) -> Answer
    ensures { (result ≡ (make_of First v.old p b l n).answer)
        × (v.new ≡ (make_of First v.old p b l n).volume) }
{
    make_under(v, Heading::First, p, b, l, n)
}
