// The rehearsal of a site's settings on a small model (document 02, §10).
use model::answer::Answer;

// What is done with a dirty page that makes way: it is written and noted, or let go.
#[derive(Clone, Copy)]
pub enum Victim {
    Written,
    Released,
}

// The settings that are tried: the count of frames, after how many of its changes a page is backed up, and the victim.
#[derive(Clone, Copy)]
pub struct Settings {
    pub frames: u32,
    pub every: u32,
    pub victim: Victim,
}

// An event: a read or a change of a page.
#[derive(Clone, Copy)]
pub enum Access {
    Read(u32),
    Change(u32),
}

// A frame of the model: its page (0: none), the event that used it last (0: none), and whether it is dirty.
#[derive(Clone, Copy)]
pub struct FrameUse {
    pub page: u32,
    pub used: u32,
    pub dirty: bool,
}

// What is counted of a page: loads; stores by sort, which are log records, page images, backup images and notes; and
// log records replayed by its loads.
#[derive(Clone, Copy)]
pub struct Figures {
    pub loads: u32,
    pub records: u32,
    pub images: u32,
    pub backups: u32,
    pub notes: u32,
    pub replayed: u32,
}

// The same of all pages together.
#[derive(Clone, Copy)]
pub struct Totals {
    pub loads: u64,
    pub records: u64,
    pub images: u64,
    pub backups: u64,
    pub notes: u64,
    pub replayed: u64,
}

// The model: its frames, and each page's figures.
#[derive(Clone, Copy)]
pub struct Rehearsal {
    pub frames: [FrameUse; 16],
    pub pages: [Figures; 64],
}

// What a rehearsal answers: done, or 25; and the figures of each page, zeros where it is refused.
#[derive(Clone, Copy)]
pub struct Rehearsed {
    pub answer: Answer,
    pub pages: [Figures; 64],
}
