// A page image: its log sequence number read, its image judged as a page's, built in a frame and stored with its
// checksum.
ghost use Rattle.std.specs.Prelude.{◌≡◌, ◌<◌, length};
ghost use Rattle.model.specs.Bytes.{part};
ghost use Rattle.model.specs.Checksum.{seal_image, image_sealed};
ghost use Rattle.model.specs.Item.{image_lsn, valid_image, frame_image};

use codec::{field, part};
use model::geometry::{FIRST_TAG, Geometry, SECOND_TAG};
use sums::byte_sum::ByteSum;
use sums::check::Check;
use sums::checksum::WordSum;

// The log sequence number of the last record in the image.
pub fn lsn(x: &[u8]) -> u32
    ensures { result ≡ image_lsn x.now }
{
    field::u32_at(x, 4)
}

// The image's sum is right: by words under the first heading, by bytes under the second, else by either. The tag is a
// byte of any value, and no enum: the definitions read it from any volume (`image_sealed`).
fn sealed(g: Geometry, x: &[u8]) -> bool
    ensures { result ≡ image_sealed g x.now }
{
    if g.tag == FIRST_TAG {
        return WordSum::holds(x, 252);
    }
    if g.tag == SECOND_TAG {
        return ByteSum::holds(x, 252);
    }
    WordSum::holds(x, 252) | ByteSum::holds(x, 252)
}

// The image is valid as the page's: checksum and page number are right, bytes 2 and 3 are zero.
pub fn valid(g: Geometry, p: u32, x: &[u8]) -> bool
    ensures { result ≡ valid_image g p x.now }
{
    let page = u32::from(field::u16_at(x, 0));
    let zero = field::u16_at(x, 2);
    sealed(g, x) & ((page == p) & (zero == 0))
}

// Makes the image of a page around the body that stands in the part. A frame's image has no checksum.
pub fn build(dst: &mut [u8], page: u32, lsn: u32)
    requires { (length dst.old ≡ 256) × (page < 65536) }
    ensures { dst.new ≡ frame_image page lsn (part dst.old 8 244) }
{
    field::put_u16(dst, 0, page as u16);
    field::put_u16(dst, 2, 0);
    field::put_u32(dst, 4, lsn);
    field::put_u32(dst, 252, 0);
}

// Sets the image's sum: words under the first heading, else bytes.
pub fn seal(x: &mut [u8], g: Geometry)
    requires { length x.old ≡ 256 }
    ensures { x.new ≡ seal_image g x.old }
{
    if g.tag == FIRST_TAG {
        WordSum::set(x, 252);
    } else {
        ByteSum::set(x, 252);
    }
}

// Stores a frame's image with its sum. The geometry says how images are summed.
pub fn store(dst: &mut [u8], frame: &[u8], g: Geometry)
    requires { (length dst.old ≡ 256) × (length frame.now ≡ 256) }
    ensures { dst.new ≡ seal_image g frame.now }
{
    part::copy(dst, frame);
    seal(dst, g);
}
