// The state to and from the 360 numbers that a caller keeps.
#![tactic(auto)]

ghost use Rattle.std.specs.Prelude.{◌≡◌, ◌∷◌, ◌<◌, length, get_or, set};
ghost use Rattle.model.specs.Tables.{every};
ghost use Rattle.model.specs.Index.{empty_entry};
ghost use Rattle.model.specs.declared.state.State as states;
ghost use Rattle.face.specs.Numbers.{note_numbers, frame_numbers, entry_numbers, numbers_of};
ghost use Rattle.face.specs.Numbers.{note_from, frame_from, entry_from, frames_of, entries_of, state_of};
ghost use Rattle.face.specs.Numbers.{note_held, frame_held, entry_held, fits};

use index_rows::entries;
use model::item::Note;
use model::state::{Entry, Frame, State};

fn note_from(kind: u32, number: u32, page: u32, slot: u32, lsn: u32) -> Option<Note>
    ensures { result ≡ note_from kind number page slot lsn }
{
    if kind == 0 {
        return None;
    }
    Some(Note {
        number,
        page: (page % 65536) as u16,
        kind: (kind % 256) as u8,
        slot: (slot % 256) as u8,
        lsn,
    })
}

fn frame_from(page: u32, dirty: u32) -> Frame
    ensures { result ≡ frame_from page dirty }
{
    Frame {
        page: (page % 65536) as u16,
        dirty: dirty == 1,
    }
}

fn entry_from(last: u32, durable: u32, written: u32, slot: u32, backup: u32) -> Entry
    ensures { result ≡ entry_from last durable written slot backup }
{
    Entry {
        last,
        durable,
        written,
        slot: (slot % 256) as u8,
        backup,
    }
}

fn frames_of(xs: &[u32]) -> [Frame; 16]
    requires { length xs.now ≡ 32 }
    ensures { result ≡ frames_of xs.now }
{
    let mut table = [Frame {
        page: 0,
        dirty: false,
    }; 16];
    for i in 0..16 {
        let k = 2 * i;
        table[i] = frame_from(xs[k], xs[k + 1]);
    }
    table
}

fn entries_of(xs: &[u32]) -> [Entry; 64]
    requires { length xs.now ≡ 320 }
    ensures { result ≡ entries_of xs.now }
{
    let mut index = [entries::EMPTY; 64];
    for i in 0..64 {
        let k = 5 * i;
        index[i] = entry_from(xs[k], xs[k + 1], xs[k + 2], xs[k + 3], xs[k + 4]);
    }
    index
}

// The state of 360 numbers.
pub fn decode(xs: &[u32]) -> State
    requires { length xs.now ≡ 360 }
    ensures { result ≡ state_of xs.now }
{
    let note = note_from(xs[3], xs[4], xs[5], xs[6], xs[7]);
    let frames = frames_of(&xs[8..40]);
    let index = entries_of(&xs[40..360]);
    State {
        durable: xs[0],
        pending: xs[1],
        notes: xs[2],
        note,
        frames,
        index,
    }
}

// The eight numbers in front.
fn head(durable: u32, pending: u32, notes: u32, p: Option<Note>) -> [u32; 8]
    ensures { result ≡ durable ∷ pending ∷ notes ∷ note_numbers p }
{
    match p {
        None => [durable, pending, notes, 0, 0, 0, 0, 0],
        Some(n) => {
            [
                durable,
                pending,
                notes,
                n.kind as u32,
                n.number,
                n.page as u32,
                n.slot as u32,
                n.lsn,
            ]
        }
    }
}

fn put_frames(table: [Frame; 16], out: &mut [u32])
    requires { length out.old ≡ 32 }
    ensures { out.new ≡ frame_numbers table }
{
    for i in 0..16 {
        let f = table[i];
        let k = 2 * i;
        out[k] = f.page as u32;
        out[k + 1] = u32::from(f.dirty);
    }
}

fn put_entries(index: [Entry; 64], out: &mut [u32])
    requires { length out.old ≡ 320 }
    ensures { out.new ≡ entry_numbers index }
{
    for i in 0..64 {
        let e = index[i];
        let k = 5 * i;
        out[k] = e.last;
        out[k + 1] = e.durable;
        out[k + 2] = e.written;
        out[k + 3] = e.slot as u32;
        out[k + 4] = e.backup;
    }
}

// The state's numbers over 360 others.
pub fn encode(s: State, out: &mut [u32])
    requires { length out.old ≡ 360 }
    ensures { out.new ≡ numbers_of s }
{
    let p = s.note;
    let front = head(s.durable, s.pending, s.notes, p);
    out[0..8].copy_from_slice(&front);
    let frames = s.frames;
    put_frames(frames, &mut out[8..40]);
    let index = s.index;
    put_entries(index, &mut out[40..360]);
}

// The state's numbers over those of a state with the same index but for one row: no call changes two.
pub fn update(s: State, row: usize, out: &mut [u32])
    requires { (length out.old ≡ 360) × (row < 64) }
    ensures { (t : states.State) → length t.frames ≡ 16 → length t.index ≡ 64 → out.old ≡ numbers_of t
        → s.index ≡ set t.index row (get_or s.index row empty_entry) → out.new ≡ numbers_of s }
{
    let p = s.note;
    let front = head(s.durable, s.pending, s.notes, p);
    let frames = s.frames;
    let e = s.index[row];
    let slot = e.slot as u32;
    let n = [e.last, e.durable, e.written, slot, e.backup];
    let k = 40 + 5 * row;
    out[0..8].copy_from_slice(&front);
    put_frames(frames, &mut out[8..40]);
    out[k..k + 5].copy_from_slice(&n);
}

// The pending note's numbers are within their fields.
fn note_fits(kind: u32, number: u32, page: u32, slot: u32, lsn: u32) -> bool
    ensures { result ≡ note_held kind number page slot lsn }
{
    if kind == 0 {
        return (number == 0) & ((page == 0) & ((slot == 0) & (lsn == 0)));
    }
    (kind <= 2) & ((page <= 65535) & (slot <= 255))
}

fn frames_fit(xs: &[u32]) -> bool
    requires { length xs.now ≡ 32 }
    ensures { result ≡ every 16 (frame_held xs.now) }
{
    let mut held = true;
    for i in 0..16 {
        let k = 2 * i;
        held &= (xs[k] <= 65535) & (xs[k + 1] <= 1);
    }
    held
}

fn entries_fit(xs: &[u32]) -> bool
    requires { length xs.now ≡ 320 }
    ensures { result ≡ every 64 (entry_held xs.now) }
{
    let mut held = true;
    for i in 0..64 {
        let k = 5 * i;
        held &= xs[k + 3] <= 255;
    }
    held
}

// The numbers are a state's.
pub fn fits(xs: &[u32]) -> bool
    ensures { result ≡ fits xs.now }
{
    if xs.len() != 360 {
        return false;
    }
    let note = note_fits(xs[3], xs[4], xs[5], xs[6], xs[7]);
    let frames = frames_fit(&xs[8..40]);
    let entries = entries_fit(&xs[40..360]);
    note & (frames & entries)
}
