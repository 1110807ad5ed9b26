// Whether an image passes in its place, by the sum that the geometry's tag names.
ghost use Rattle.std.specs.Prelude.{◌≡◌, ◌<◌};
ghost use Rattle.model.specs.Geometry.{with_tag, slot_at};
ghost use Rattle.model.specs.Item.{valid_image, valid_somewhere};
ghost use Rattle.model.specs.Passes.{valid_as_noted, passes_at, image_count, image_place};

use codec::field;
use index_rows::entries;
use item::image;
use model::geometry::Geometry;
use model::state::Entry;

// The same counts under another tag.
pub fn under(g: Geometry, tag: u8) -> Geometry
    ensures { result ≡ with_tag g tag }
{
    Geometry { tag, ..g }
}

// The image is valid as a page to which the index gives the slot. A sum is slow: the slot is compared first.
fn noted(g: Geometry, slot: u32, x: &[u8], index: [Entry; 64]) -> bool
    ensures { result ≡ valid_as_noted g slot x.now 0 index }
{
    for (i, e) in index.iter().enumerate() {
        if u32::from(e.slot) == slot && image::valid(g, i as u32 + 1, x) {
            return true;
        }
    }
    false
}

// The image is valid as any page's.
fn somewhere(g: Geometry, x: &[u8]) -> bool
    ensures { result ≡ valid_somewhere g x.now }
{
    let page = u32::from(field::u16_at(x, 0));
    let valid = image::valid(g, page, x);
    ((1 <= page) & (page <= g.pages)) & valid
}

// The image passes in the slot: as a page that the index gives it to; in any other slot as any page.
fn slot_passes(g: Geometry, index: [Entry; 64], slot: u32, x: &[u8]) -> bool
    ensures { result ≡ passes_at g index (slot_at slot) x.now }
{
    if entries::used(index, slot) {
        return noted(g, slot, x, index);
    }
    somewhere(g, x)
}

// The image passes in place i: pages, counted from 0, then slots.
pub fn passes(g: Geometry, index: [Entry; 64], i: u32, x: &[u8]) -> bool
    requires i_bound { i < image_count g }
    requires g_bound { image_count g < 4294967295 }
    ensures { result ≡ passes_at g index (image_place g i) x.now }
{
    if i < g.pages {
        return image::valid(g, i + 1, x);
    }
    slot_passes(g, index, i - g.pages + 1, x)
}
