// The images of a volume in order, pages before slots, and the first that passes only the old sum.
ghost use Rattle.std.specs.Prelude.{◌≡◌, ◌<◌, MatchOption};
ghost use Rattle.model.specs.Geometry.{start, item};
ghost use Rattle.model.specs.Passes.{image_count, image_place, old_at, first_old};

use crate::passes;
use model::geometry::{FIRST_TAG, Geometry, SECOND_TAG};
use model::state::Entry;
use volume::{Volume, place};

// Where image i, counted from 0, starts.
pub fn image_at(g: Geometry, i: u32) -> usize
    requires i_bound { i < image_count g }
    requires g_bound { image_count g < 4294967295 }
    ensures { result ≡ start g (image_place g i) }
{
    if i < g.pages {
        return place::page_at(g, i + 1);
    }
    place::slot_at(g, i - g.pages + 1)
}

// Image i.
pub fn image<'a>(v: &Volume<'a>, i: u32) -> &'a [u8; 256]
    requires { i < image_count v.now.geometry }
    ensures { result.now ≡ item v.now.geometry v.now.bytes.now (image_place v.now.geometry i) }
{
    let pages = v.geometry.pages;
    if i < pages {
        return v.page(i + 1);
    }
    v.slot(i - pages + 1)
}

// Image i passes only the old sum: in its place by words, and not by bytes.
fn old_at(v: &Volume<'_>, index: [Entry; 64], i: u32) -> bool
    requires { i < image_count v.now.geometry }
    ensures { result ≡ old_at v.now.geometry v.now.bytes.now index i }
{
    let g = v.geometry;
    let x = image(v, i);
    let words = passes::passes(passes::under(g, FIRST_TAG), index, i, x);
    let bytes = passes::passes(passes::under(g, SECOND_TAG), index, i, x);
    words & !bytes
}

// The first image that passes only the old sum; None, for which the definition has the count of images, where none
// does.
pub fn first_old(v: &Volume<'_>, index: [Entry; 64]) -> Option<u32>
    ensures { MatchOption result (first_old v.now.geometry v.now.bytes.now index ≡ image_count v.now.geometry)
        (λ i. (i ≡ first_old v.now.geometry v.now.bytes.now index) × (i < image_count v.now.geometry)) }
{
    let count = v.geometry.pages + v.geometry.slots;
    for i in 0..count {
        if old_at(v, index, i) {
            return Some(i);
        }
    }
    None
}
