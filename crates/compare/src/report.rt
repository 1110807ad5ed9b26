// The comparison as 66 numbers in a lent report: kind, count, and a number for each page.
ghost use Rattle.std.specs.Prelude.{◌≡◌, length};
ghost use Rattle.model.specs.Refused.{error_number};
ghost use Rattle.reports.specs.Mirror as mirrors;

use model::answer::Refusal;
use reports::reading::{Compared, Comparison};

// The kind's number, and the count.
fn numbers(a: Comparison) -> (u32, u32)
    ensures { (result.0 ≡ mirrors.kind_number a) × (result.1 ≡ mirrors.count_number a) }
{
    match a {
        Comparison::Refused(_) => (0, 0),
        Comparison::Agree => (1, 0),
        Comparison::FirstLacks(n) => (2, n),
        Comparison::SecondLacks(n) => (3, n),
        Comparison::Differs(n) => (4, n),
    }
}

// Writes a comparison's numbers.
fn tell(c: Compared, report: &mut [u32])
    requires { length report.old ≡ 66 }
    ensures { report.new ≡ mirrors.numbers_of c }
{
    let (kind, count) = numbers(c.answer);
    report[0] = kind;
    report[1] = count;
    let touched = c.touched;
    for (i, &t) in touched.iter().enumerate() {
        report[i + 2] = u32::from(t);
    }
}

// Compares two volumes' logs into a lent report. Both headings are compared before the length is looked at; a report of
// another length is refused behind row 1.
fn fill(first: &[u8], second: &[u8], report: &mut [u32]) -> Result<(), Refusal>
    ensures answer { error_number result
        ≡ (mirrors.compare_of first.now second.now report.old).refusal }
    ensures report { report.new
        ≡ (mirrors.compare_of first.now second.now report.old).report }
{
    let (v, w) = crate::open_both(first, second)?;
    if report.len() != 66 {
        return Err(Refusal::BadBuffer);
    }
    let c = crate::judged(&v, &w)?;
    tell(c, report);
    Ok(())
}

// The same, for C: 0 or the refusal.
// Ruled out: a refusal that wrote to the report (tried); a log that lacks records told as the other (tried).
pub fn tell_comparison(first: &[u8], second: &[u8], report: &mut [u32]) -> u32
    ensures answer { result
        ≡ (mirrors.compare_of first.now second.now report.old).refusal }
    ensures report { report.new
        ≡ (mirrors.compare_of first.now second.now report.old).report }
{
    match fill(first, second, report) {
        Ok(()) => 0,
        Err(no) => u32::from(no),
    }
}
