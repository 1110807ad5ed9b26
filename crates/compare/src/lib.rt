// Compare: two volumes' durable logs held against each other, without memory or state.
#![tactic(auto)]

ghost use Rattle.std.specs.Prelude.{◌≡◌, ◌≤◌, cond, not, ◌&&◌, Ok, IfOk};
ghost use Rattle.model.specs.Geometry.{valid_volume};
ghost use Rattle.model.specs.Tables.{first_of};
ghost use Rattle.model.specs.Refused.{error_number};
ghost use Rattle.reports.specs.Mirror as mirrors;
ghost use Rattle.compare.specs.Volumes.{both_refusal};

pub mod changes;
pub mod pages;
pub mod report;

use index::Counts;
use model::answer::Refusal;
use reports::reading::{Compared, Comparison};
use volume::{Volume, heading};

// Two volumes, where both are valid. Both headings are compared before anything else is read.
fn open_both<'a, 'b>(first: &'a [u8], second: &'b [u8]) -> Result<(Volume<'a>, Volume<'b>), Refusal>
    ensures refusal { error_number result ≡ cond (not (valid_volume first.now && valid_volume second.now)) 1 0 }
    ensures bytes { IfOk result (λ p. (p.0.bytes.now ≡ first.now) × (p.1.bytes.now ≡ second.now)) }
{
    if !heading::known(first) | !heading::known(second) {
        return Err(Refusal::BadVolume);
    }
    let v = Volume::open(first)?;
    let w = Volume::open(second)?;
    Ok((v, w))
}

// What two scans count, or the refusal: by number, whichever of the two gives it.
fn both(a: Result<Counts, Refusal>, b: Result<Counts, Refusal>) -> Result<(Counts, Counts), Refusal>
    ensures refusal { error_number result ≡ both_refusal a b }
    ensures counts { IfOk result (λ c. (a ≡ Ok c.0) × (b ≡ Ok c.1)) }
{
    match (a, b) {
        (Ok(c), Ok(d)) => {
            if index::gone(c) | index::gone(d) {
                return Err(Refusal::HistoryLost);
            }
            Ok((c, d))
        }
        (Ok(_), Err(s)) => Err(s),
        (Err(r), Ok(_)) => Err(r),
        (Err(r), Err(s)) => Err(if u32::from(s) < u32::from(r) { s } else { r }),
    }
}

// The answer, for logs of n and m records with k in common.
fn answer(k: u32, n: u32, m: u32) -> Comparison
    requires { (k ≤ n) × (k ≤ m) }
    ensures { result ≡ mirrors.comparison k n m }
{
    match (k == n, k == m) {
        (true, true) => Comparison::Agree,
        (true, false) => Comparison::FirstLacks(m - k),
        (false, true) => Comparison::SecondLacks(n - k),
        (false, false) => Comparison::Differs(k + 1),
    }
}

// The comparison of two valid volumes.
fn judged(v: &Volume<'_>, w: &Volume<'_>) -> Result<Compared, Refusal>
    ensures refusal { error_number result ≡ first_of (mirrors.mirror_rows v.now.bytes.now w.now.bytes.now) }
    ensures compared { IfOk result (λ c. c ≡ mirrors.mirror_of v.now.bytes.now w.now.bytes.now) }
{
    let (a, b) = both(index::count(v.bytes), index::count(w.bytes))?;
    let n = a.durable;
    let m = b.durable;
    let k = changes::common(v, w, n.min(m));
    let mut touched = [false; 64];
    pages::mark_behind(v, k, n, &mut touched);
    pages::mark_behind(w, k, m, &mut touched);
    let answer = answer(k, n, m);
    Ok(Compared { answer, touched })
}

// The same of any bytes.
fn opened(first: &[u8], second: &[u8]) -> Result<Compared, Refusal>
    ensures refusal { error_number result ≡ first_of (mirrors.mirror_rows first.now second.now) }
    ensures compared { IfOk result (λ c. c ≡ mirrors.mirror_of first.now second.now) }
{
    let (v, w) = open_both(first, second)?;
    judged(&v, &w)
}

// Compares two volumes' logs. Both headings are compared before anything else is read.
// Ruled out: that logs agree where a payload differs (tried); a page that only the second log touches left out (tried);
// a shorter log taken as a beginning (tried); the refusal of the first volume before a lower one of the second (tried).
pub fn compare(first: &[u8], second: &[u8]) -> Compared
    ensures { result ≡ mirrors.mirror_of first.now second.now }
{
    match opened(first, second) {
        Ok(c) => c,
        Err(no) => Compared {
            answer: Comparison::Refused(u32::from(no)),
            touched: [false; 64],
        },
    }
}
