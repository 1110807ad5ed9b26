// The forecast of the volume, op 22: a hash of the figure, refusal and count, of each of 64 pages.
use model::answer::Answer;
use script::hash;
use script::session::{Said, Workspace};

pub fn forecast(w: &Workspace<'_>) -> Said {
    let f = forecast::forecast(w.volume.lent(w.session.volume));
    if f.refusal != 0 {
        return Said::Answer(Answer::Refused(f.refusal));
    }
    let h = f
        .pages
        .iter()
        .fold(hash::START, |h, p| hash::steps(h, [p.refusal, p.count]));
    Said::Number("FORECAST", h)
}
