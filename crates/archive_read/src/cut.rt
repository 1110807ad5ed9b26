// The cut of an archive into segments: a segment's count and its records fit what is left, and where it ends. Two
// functions and no Option: the archive is rebuilt once it is known that every segment fits, and then `past` tests nothing.
ghost use Rattle.std.specs.Prelude.{◌≡◌, true, ◌+◌, ◌*◌, ◌≤◌, length, drop};
ghost use Rattle.model.specs.Bytes.{le};
ghost use Rattle.reports.specs.Archive.{segment_fits};

use codec::field;

// The segment at a place fits what is left. Its records are counted against the bytes, never the bytes of its count.
pub fn fits(archive: &[u8], at: usize) -> bool
    requires { at ≤ length archive.now }
    ensures { result ≡ segment_fits (drop at archive.now) }
{
    let left = archive.len() - at;
    if left < 4 {
        return false;
    }
    let count = field::u32_at(archive, at) as usize;
    count <= (left - 4) / 64
}

// Where the segment at a place ends.
pub fn past(archive: &[u8], at: usize) -> usize
    requires { (at ≤ length archive.now) × (segment_fits (drop at archive.now) ≡ true) }
    ensures { result ≡ at + (4 + 64 * le 4 (drop at archive.now)) }
{
    let count = field::u32_at(archive, at) as usize;
    at + (4 + 64 * count)
}
