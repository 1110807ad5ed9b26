// The log archive's length and its writer, from a volume and without memory or state.
#![tactic(auto)]

ghost use Rattle.std.specs.Prelude.{◌≡◌, Ok, IfOk};
ghost use Rattle.model.specs.Refused.{error_number};
ghost use Rattle.model.specs.Outcome.{refusal_of};
ghost use Rattle.reports.specs.Archive.{size_of, size_refusal, archive_of};
ghost use Rattle.archive_write.specs.Extent.{whole_refusal, extent_of, size_told, size_number};

mod segment;

use model::answer::{Answer, Refusal};
use volume::Volume;

// What an archive takes: the durable records, and the archive's length.
#[derive(Clone, Copy)]
pub struct Extent {
    pub durable: u32,
    pub size: u32,
}

// Scans a volume for what its archive takes. Refused as the scan is, then where record 1 has left the log.
fn measure(volume: &[u8]) -> Result<Extent, Refusal>
    ensures refusal { error_number result ≡ whole_refusal volume.now }
    ensures extent { IfOk result (λ e. e ≡ extent_of volume.now) }
{
    let c = index::count(volume)?;
    if index::gone(c) {
        return Err(Refusal::HistoryLost);
    }
    let durable = c.durable;
    let size = 4 * Volume::of(volume).geometry.pages + 64 * durable;
    Ok(Extent { durable, size })
}

// The length of a volume's archive.
// Ruled out: a length without the segments' counts (tried); a length for a log whose record 1 has left it (tried).
pub fn length(volume: &[u8]) -> Result<u32, Refusal>
    ensures told { size_told result ≡ size_of volume.now }
    ensures refusal { error_number result ≡ size_refusal (size_of volume.now) }
    ensures size { IfOk result (λ n. size_of volume.now ≡ Ok n) }
{
    Ok(measure(volume)?.size)
}

// Writes a volume's archive into a buffer of its length.
fn fill(volume: &[u8], buffer: &mut [u8]) -> Result<(), Refusal>
    ensures answer { error_number result ≡ refusal_of (archive_of volume.now buffer.old).answer }
    ensures buffer { buffer.new ≡ (archive_of volume.now buffer.old).buffer }
{
    let e = measure(volume)?;
    if buffer.len() != e.size as usize {
        return Err(Refusal::BadLength);
    }
    segment::segments(&Volume::of(volume), e.durable, buffer);
    Ok(())
}

// Writes a volume's archive.
// Ruled out: records newest first (tried); a page's first record left out (tried); a buffer that is longer (tried).
pub fn write(volume: &[u8], buffer: &mut [u8]) -> Answer
    ensures answer { result ≡ (archive_of volume.now buffer.old).answer }
    ensures buffer { buffer.new ≡ (archive_of volume.now buffer.old).buffer }
{
    match fill(volume, buffer) {
        Ok(()) => Answer::Done,
        Err(no) => Answer::from(no),
    }
}

// The length as a number, for C: 0 where it is refused, since every length is at least 4.
// Ruled out: a refusal's number as a length; 0 for a volume with an archive.
pub fn length_number(volume: &[u8]) -> u32
    ensures { result ≡ size_number (size_of volume.now) }
{
    length(volume).unwrap_or(0)
}

// Writes a volume's archive, for C: 0 or the refusal.
// Ruled out: 0 with an untouched buffer; a refusal that wrote to the buffer (tried).
pub fn write_number(volume: &[u8], buffer: &mut [u8]) -> u32
    ensures answer { result ≡ refusal_of (archive_of volume.now buffer.old).answer }
    ensures buffer { buffer.new ≡ (archive_of volume.now buffer.old).buffer }
{
    match fill(volume, buffer) {
        Ok(()) => 0,
        Err(no) => u32::from(no),
    }
}
