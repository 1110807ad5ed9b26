// The volume's log held against that of the second buffer's volume, op 26, with the hash of 64 numbers, 1 for a page
// that is listed.
use model::answer::Answer;
use reports::reading::Comparison;
use script::hash;
use script::session::{Said, Workspace};

pub fn compare(w: &Workspace<'_>) -> Said {
    let s = &w.session;
    let c = compare::compare(w.volume.lent(s.volume), w.second.lent(s.second));
    let h = c
        .touched
        .iter()
        .fold(hash::START, |h, t| hash::step(h, u32::from(*t)));
    match c.answer {
        Comparison::Refused(n) => Said::Answer(Answer::Refused(n)),
        Comparison::Agree => Said::Number("AGREE", h),
        Comparison::FirstLacks(n) => Said::Numbers("FIRST", n, h),
        Comparison::SecondLacks(n) => Said::Numbers("SECOND", n, h),
        Comparison::Differs(n) => Said::Numbers("DIFFERS", n, h),
    }
}
