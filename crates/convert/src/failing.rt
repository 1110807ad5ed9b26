// How many images of a volume pass under neither sum that its heading allows: the carrying passes them over.
ghost use Rattle.std.specs.Prelude.{◌≡◌, ◌<◌};
ghost use Rattle.model.specs.Passes.{image_count};
ghost use Rattle.convert.specs.Failing.{fails_at, failing_in, failing_count};

use crate::{images, passes};
use model::state::{Entry, State};
use volume::Volume;

// Image i fails in its place.
fn fails(v: &Volume<'_>, index: [Entry; 64], i: u32) -> bool
    requires { i < image_count v.now.geometry }
    ensures { result ≡ fails_at v.now.geometry v.now.bytes.now index i }
{
    !passes::passes(v.geometry, index, i, images::image(v, i))
}

// How many do.
fn count(v: &Volume<'_>, index: [Entry; 64]) -> u32
    ensures { result ≡ failing_in v.now.geometry v.now.bytes.now index }
{
    let images = v.geometry.pages + v.geometry.slots;
    let mut n: u32 = 0;
    for i in 0..images {
        n += u32::from(fails(v, index, i));
    }
    n
}

// How many images fail, of a volume that restart or a call took; 0 for one that is not valid.
// Ruled out: an image of a slot outside the index left out; one that passes under one sum counted.
pub fn failing(s: State, volume: &[u8]) -> u32
    ensures { result ≡ failing_count volume.now s }
{
    match Volume::open(volume) {
        Ok(v) => count(&v, s.index),
        Err(_) => 0,
    }
}
