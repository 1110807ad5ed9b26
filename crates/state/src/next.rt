// The states that the calls leave, each as the model defines it.
ghost use Rattle.std.specs.Prelude.{◌≡◌, true, false, ◌+◌, ◌-◌, ◌≤◌, ◌<◌};
ghost use Rattle.model.specs.State.{zero_state};
ghost use Rattle.state.specs.Resumed.{resumed_state};
ghost use Rattle.model.specs.Effects.{with_frame, with_frames, next_note, appended_state, forced_state, noted_state};

use index::Scanned;
use index_rows::entries;
use model::item::Note;
use model::state::{Frame, State};

// The state of zeros.
pub fn zero() -> State
    ensures { result ≡ zero_state }
{
    let frames = [Frame {
        page: 0,
        dirty: false,
    }; 16];
    let index = [entries::EMPTY; 64];
    State {
        durable: 0,
        pending: 0,
        notes: 0,
        note: None,
        frames,
        index,
    }
}

// The state that a scan gives, with no frame in use.
pub fn resumed(scan: Scanned) -> State
    ensures { result ≡ resumed_state scan }
{
    let index = scan.index;
    State {
        durable: scan.durable,
        notes: scan.notes,
        index,
        ..zero()
    }
}

// One more pending record, of the page, which frame f holds and is dirty.
pub fn appended(mut s: State, page: u32, f: u32) -> State
    requires { (1 ≤ page) × (page ≤ 64) × (1 ≤ f) × (f ≤ 16) × (s.durable + s.pending < 4294967295)
        × (s.pending < 4294967295) }
    ensures { result ≡ appended_state s page f }
{
    let n = s.durable + s.pending + 1;
    s.pending += 1;
    let k = (f - 1) as usize;
    s.frames[k] = Frame {
        page: page as u16,
        dirty: true,
    };
    let i = (page - 1) as usize;
    s.index[i].last = n;
    s
}

// Frame f holds the page.
pub fn loaded(mut s: State, page: u32, f: u32, dirty: bool) -> State
    requires { (page ≤ 64) × (1 ≤ f) × (f ≤ 16) }
    ensures { result ≡ with_frames s (with_frame s f page dirty) s.note }
{
    let k = (f - 1) as usize;
    s.frames[k] = Frame {
        page: page as u16,
        dirty,
    };
    s
}

// The oldest pending record, of the page given, is durable; a page that is none of the volume's has no entry.
pub fn forced(mut s: State, pages: u32, page: u32) -> State
    requires { (pages ≤ 64) × (0 < s.pending) × (s.durable < 4294967295) }
    ensures { result ≡ forced_state s pages page }
{
    let n = s.durable + 1;
    s.durable = n;
    s.pending -= 1;
    if (1 <= page) & (page <= pages) {
        let i = (page - 1) as usize;
        s.index[i].durable = n;
    }
    s
}

// The note that is to be stored next, of the page's image.
fn next_note(s: &State, page: u32, kind: u8, slot: u8, lsn: u32) -> Option<Note>
    requires { (page ≤ 64) × (s.now.notes < 4294967295) }
    ensures { result ≡ next_note s.now page kind slot lsn }
{
    Some(Note {
        number: s.notes + 1,
        page: page as u16,
        kind,
        slot,
        lsn,
    })
}

// The page is written from frame f: the frame is clean, the note is to be stored.
pub fn written(mut s: State, page: u32, f: u32, lsn: u32) -> State
    requires { (page ≤ 64) × (1 ≤ f) × (f ≤ 16) × (s.notes < 4294967295) }
    ensures { result ≡ with_frames s (with_frame s f page false) (next_note s page 1 0 lsn) }
{
    s.note = next_note(&s, page, 1, 0, lsn);
    loaded(s, page, f, false)
}

// The page is backed up into the slot: the note is to be stored.
pub fn backed_up(mut s: State, page: u32, slot: u32, lsn: u32) -> State
    requires { (page ≤ 64) × (slot ≤ 255) × (s.notes < 4294967295) }
    ensures { result ≡ with_frames s s.frames (next_note s page 2 slot lsn) }
{
    s.note = next_note(&s, page, 2, slot as u8, lsn);
    s
}

// The note is stored, and entered in the index.
pub fn noted(mut s: State, n: Note) -> State
    requires { (1 ≤ n.page) × (n.page ≤ 64) × (s.notes < 4294967295) }
    ensures { result ≡ noted_state s n }
{
    s.notes += 1;
    s.note = None;
    s.index = entries::enter(s.index, n);
    s
}
