// Inspect: a page rebuilt from the durable records of a volume, into a lent buffer.
#![tactic(auto)]

ghost use Rattle.std.specs.Prelude.{◌≡◌, MatchResult};
ghost use Rattle.model.specs.Refused.{refusal_number};
ghost use Rattle.model.specs.Outcome.{refusal_of};
ghost use Rattle.model.specs.Restart.{inspect_of};
ghost use Rattle.model.specs.declared.answer.Answer.TheVariants.{Refused, Repaired};

use item::image;
use model::answer::{Answer, Refusal, Repair};
use repair::{Target, answer, rebuild, walk};
use volume::Volume;

// Rebuilds the page, tested in the order of the table's row: 1, 2, 3, then the scan's 17 or 18, then 7 and 23.
fn restore(volume: &[u8], page: u32, buffer: &mut [u8]) -> Result<Repair, Refusal>
    ensures { MatchResult result
        (λ r. Repaired r ≡ (inspect_of volume.now page buffer.old).answer)
        (λ n. Refused (refusal_number n) ≡ (inspect_of volume.now page buffer.old).answer)
        × (buffer.new ≡ (inspect_of volume.now page buffer.old).buffer) }
{
    let v = Volume::open(volume)?;
    if buffer.len() != 256 {
        return Err(Refusal::BadBuffer);
    }
    if !((1 <= page) & (page <= v.geometry.pages)) {
        return Err(Refusal::NoSuchPage);
    }
    let found = index::seek(volume, v.geometry, page)?;
    if found.entry.durable == 0 {
        return Err(Refusal::BlankPage);
    }
    let t = Target {
        volume: v,
        first: found.first,
        entry: found.entry,
        page,
    };
    let walked = walk::follow(&t);
    if walk::below(walked.stop) {
        return Err(Refusal::PageLost);
    }
    rebuild::rebuild(&t, walked, buffer);
    image::seal(buffer, v.geometry);
    Ok(answer::answer(walked))
}

// Inspects a page. The heading is compared before a count is read.
// Ruled out: the disk's image handed over unrepaired; a made-up count; every page blank (tried); every call refused
// (tried); a refusal that wrote to the buffer.
pub fn inspect(volume: &[u8], page: u32, buffer: &mut [u8]) -> Answer
    ensures answer { result ≡ (inspect_of volume.now page buffer.old).answer }
    ensures buffer { buffer.new ≡ (inspect_of volume.now page buffer.old).buffer }
{
    match restore(volume, page, buffer) {
        Ok(repair) => Answer::Repaired(repair),
        Err(refusal) => Answer::from(refusal),
    }
}

// The number that stands for an answer.
pub fn number(a: Answer) -> u32
    ensures { result ≡ refusal_of a }
{
    match a {
        Answer::Refused(n) => n,
        _ => 0,
    }
}
