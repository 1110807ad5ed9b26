// The reader of a log archive: judged as a whole, then every page rebuilt from its segment into a lent area; and how
// many pages an archive has.
#![tactic(auto)]

ghost use Rattle.std.specs.Prelude.{◌≡◌, length};
ghost use Rattle.model.specs.Tables.{first_of};
ghost use Rattle.reports.specs.Archive.{archive_pages, valid_area, read_rows, read_of};
ghost use Rattle.model.specs.Outcome.{refusal_of};
ghost use Rattle.model.specs.Refused.{error_number};

mod cut;
mod segment;
mod whole;

use model::answer::{Answer, Refusal};

// The most pages that a volume has.
const MOST: u32 = 64;

// The number of pages, for a program that has none: into how many segments the counts cut the archive; 0 where they do
// not. Records are not judged. Each turn goes on where a segment ends, so no count bounds the loop.
// Ruled out: bytes behind the last segment passed over; more than 64 pages (both tried).
pub fn pages(archive: &[u8]) -> u32
    ensures { result ≡ archive_pages archive.now }
{
    let mut at: usize = 0;
    let mut k: u32 = 0;
    while at < archive.len() {
        if (MOST <= k) | !cut::fits(archive, at) {
            return 0;
        }
        at = cut::past(archive, at);
        k += 1;
    }
    k
}

// An area of so many bytes has room for 1 to 64 images, and for nothing else.
fn holds_images(size: usize) -> bool
    ensures { result ≡ valid_area size }
{
    let pages = size / 256;
    ((1 <= pages) & (pages <= 64)) & (size == 256 * pages)
}

// The rows: 2, then 22. The whole archive is judged.
fn refusal(archive: &[u8], size: usize) -> Result<(), Refusal>
    ensures { error_number result ≡ first_of (read_rows archive.now size) }
{
    if !holds_images(size) {
        return Err(Refusal::BadBuffer);
    }
    if !whole::valid(archive, (size / 256) as u32) {
        return Err(Refusal::BadArchive);
    }
    Ok(())
}

// Fills the area with the pages of an archive. All of the archive is judged before the first write.
fn fill(archive: &[u8], area: &mut [u8]) -> Result<(), Refusal>
    ensures answer { error_number result ≡ refusal_of (read_of archive.now area.old).answer }
    ensures area { area.new ≡ (read_of archive.now area.old).buffer }
{
    refusal(archive, area.len())?;
    let pages = (area.len() / 256) as u32;
    whole::rebuild(archive, pages, area);
    Ok(())
}

// Reads an archive: every page rebuilt from its segment into the area, whose length tells how many pages there are.
// Ruled out: an area of 65 images taken; a blank page with a page number (both tried).
pub fn read(archive: &[u8], area: &mut [u8]) -> Answer
    ensures answer { result ≡ (read_of archive.now area.old).answer }
    ensures area { area.new ≡ (read_of archive.now area.old).buffer }
{
    match fill(archive, area) {
        Ok(()) => Answer::Done,
        Err(no) => Answer::from(no),
    }
}

// The same, for C: 0 or the refusal.
// Ruled out: a write before a refusal (tried); a check set in the area (tried).
pub fn read_number(archive: &[u8], area: &mut [u8]) -> u32
    ensures answer { result ≡ refusal_of (read_of archive.now area.old).answer }
    ensures area { area.new ≡ (read_of archive.now area.old).buffer }
{
    match fill(archive, area) {
        Ok(()) => 0,
        Err(no) => u32::from(no),
    }
}
