// The pages of log records, marked in a bool for each.
ghost use Rattle.std.specs.Prelude.{◌≡◌};
ghost use Rattle.compare.specs.Volumes.{marked, marked_behind};

use codec::field;
use volume::Volume;

// Marks a page. Past the 64 that a volume may have there is none to mark.
fn mark(touched: &mut [bool; 64], page: u32)
    ensures { touched.new ≡ marked touched.old page }
{
    if (1 <= page) & (page <= 64) {
        touched[page as usize - 1] = true;
    }
}

// Marks the pages of records k + 1 to n.
pub fn mark_behind(v: &Volume<'_>, k: u32, n: u32, touched: &mut [bool; 64])
    ensures { touched.new ≡ marked_behind v.now.geometry v.now.bytes.now k n touched.old }
{
    for i in k..n {
        let r = v.record(i + 1);
        mark(touched, u32::from(field::u16_at(r, 8)));
    }
}
