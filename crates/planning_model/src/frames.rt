// The frames of the model, searched for a page and for the least recently used.
ghost use Rattle.std.specs.Prelude.{◌≡◌, ◌+◌, ◌-◌, ◌≤◌, ◌<◌, length, MatchOption};
ghost use Rattle.planning.specs.Rehearsal.{holding, least_used};

use planning::rehearsal::FrameUse;

// The frame that holds the page, the last of them. (A loop and no `rposition`: what is known of that says more of its
// runs than of the frames.)
pub fn holding(frames: &[FrameUse], page: u32) -> Option<usize>
    ensures { MatchOption result (holding frames.now page (length frames.now) ≡ 0)
        (λ f. (f < length frames.now) × (holding frames.now page (length frames.now) ≡ f + 1)) }
{
    let mut found = None;
    for (i, x) in frames.iter().enumerate() {
        if x.page == page {
            found = Some(i);
        }
    }
    found
}

// The least recently used frame, the first of them.
pub fn least_used(frames: &[FrameUse]) -> usize
    ensures { (result ≡ least_used frames.now (length frames.now)) × (result ≤ length frames.now - 1) }
{
    let mut f: usize = 0;
    for (i, x) in frames.iter().enumerate() {
        if x.used < frames[f].used {
            f = i;
        }
    }
    f
}
