// Inspection that also tells class, start and count, as numbers: for a server that marks a page as healthy or mended.
ghost use Rattle.std.specs.Prelude.{◌≡◌, length};
ghost use Rattle.reports.specs.Examine.{class_number, start_number, reported, examine_of};

use model::answer::{Answer, Class, Refusal, Start};
use volume::heading;

// The numbers that `pagestore_examine` gives to C: a match says them, whatever the order of the cases.
pub fn class_number(c: Class) -> u32
    ensures { result ≡ class_number c }
{
    match c {
        Class::Good => 1,
        Class::Behind => 2,
        Class::Stale => 3,
        Class::Failed => 4,
        Class::Ahead => 5,
    }
}

pub fn start_number(s: Start) -> u32
    ensures { result ≡ start_number s }
{
    match s {
        Start::Own => 1,
        Start::Backup => 2,
        Start::Format => 3,
    }
}

// What an answer tells; a refusal leaves the report as it was.
fn tell(a: Answer, report: &mut [u32])
    requires { length report.old ≡ 3 }
    ensures { report.new ≡ reported a report.old }
{
    if let Answer::Repaired(r) = a {
        report[0] = class_number(r.class);
        report[1] = start_number(r.start);
        report[2] = r.count;
    }
}

// Inspection with its class, start and count as numbers: 0 or the refusal, for C. The heading is compared first.
// Ruled out: a refusal that wrote to the report (tried); the numbers of two classes exchanged (tried).
pub fn examine(volume: &[u8], page: u32, buffer: &mut [u8], report: &mut [u32]) -> u32
    ensures answer { result
        ≡ (examine_of volume.now page buffer.old report.old).refusal }
    ensures buffer { buffer.new
        ≡ (examine_of volume.now page buffer.old report.old).buffer }
    ensures report { report.new
        ≡ (examine_of volume.now page buffer.old report.old).report }
{
    if !heading::known(volume) {
        return u32::from(Refusal::BadVolume);
    }
    if report.len() != 3 {
        let refusal = if heading::valid(volume) {
            Refusal::BadBuffer
        } else {
            Refusal::BadVolume
        };
        return u32::from(refusal);
    }
    let a = inspect::inspect(volume, page, buffer);
    tell(a, report);
    inspect::number(a)
}
