// The log archive, ops 23 to 25 and 29: its length, its writer into the lent buffer, its reader from the second buffer
// into the lent one, and the number of its pages.
use model::answer::Answer;
use script::session::{Said, Workspace};

pub fn length(w: &Workspace<'_>) -> Said {
    match archive_write::length(w.volume.lent(w.session.volume)) {
        Err(refusal) => Said::Answer(Answer::from(refusal)),
        Ok(n) => Said::Number("LENGTH", n),
    }
}

pub fn write(w: &mut Workspace<'_>) -> Said {
    let s = &w.session;
    let volume = w.volume.lent(s.volume);
    Said::Answer(archive_write::write(volume, w.lent.lent_mut(s.lent)))
}

pub fn read(w: &mut Workspace<'_>) -> Said {
    let s = &w.session;
    let archive = w.second.lent(s.second);
    Said::Answer(archive_read::read(archive, w.lent.lent_mut(s.lent)))
}

pub fn pages(w: &Workspace<'_>) -> Said {
    let archive = w.second.lent(w.session.second);
    Said::Number("PAGES", archive_read::pages(archive))
}
