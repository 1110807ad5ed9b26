// The common beginning of two logs, change by change.
ghost use Rattle.std.specs.Prelude.{◌≡◌};
ghost use Rattle.reports.specs.Mirror.{same_change, common_from};

use volume::Volume;

// Two records are the same change: page, kind, length, offset, fill, zero and payload are equal. No turn of the loop
// waits for a test: the compiler makes vectors of it.
fn same(r: &[u8; 64], t: &[u8; 64]) -> bool
    ensures { result ≡ same_change r.now t.now }
{
    let mut same = true;
    for i in 8..60 {
        same &= r[i] == t[i];
    }
    same
}

// How many of the first `most` records of two volumes are the same change, before one that is not.
pub fn common(v: &Volume<'_>, w: &Volume<'_>, most: u32) -> u32
    ensures { result ≡ common_from most v.now.bytes.now w.now.bytes.now 0 }
{
    for k in 0..most {
        if !same(v.record(k + 1), w.record(k + 1)) {
            return k;
        }
    }
    most
}
