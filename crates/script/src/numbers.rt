// The state as 360 numbers: 3 counts, 5 of the pending note, 2 for each of 16 frames, 5 for each of 64 pages. Any of
// them can be set.
use model::item::Note;
use model::state::State;

// The largest number that may stand at a position.
fn most(at: u32) -> u32 {
    match at {
        3 => 2,
        5 => 65535,
        6 => 255,
        8..=39 => if at % 2 == 1 { 1 } else { 65535 },
        40.. => if at % 5 == 3 { 255 } else { u32::MAX },
        _ => u32::MAX,
    }
}

// Whether the number at a position may become x. A note's fields are there only with a note.
pub fn settable(s: &State, at: u32, x: u32) -> bool {
    let is_field = (4..=7).contains(&at);
    (at < 360) & (x <= most(at)) & (!is_field | s.note.is_some())
}

fn set_count(s: &mut State, at: u32, x: u32) {
    match at {
        0 => s.durable = x,
        1 => s.pending = x,
        _ => s.notes = x,
    }
}

// A note of a kind, with no other number.
fn of_kind(kind: u8) -> Note {
    Note {
        number: 0,
        page: 0,
        kind,
        slot: 0,
        lsn: 0,
    }
}

// A pending note whose kind becomes x; kind 0 is none.
fn with_kind(p: Option<Note>, x: u32) -> Option<Note> {
    if x == 0 {
        return None;
    }
    let kind = (x % 256) as u8;
    Some(p.map_or(of_kind(kind), |n| Note { kind, ..n }))
}

fn with_field(n: Note, at: u32, x: u32) -> Note {
    match at {
        4 => Note { number: x, ..n },
        5 => Note {
            page: (x % 65536) as u16,
            ..n
        },
        6 => Note {
            slot: (x % 256) as u8,
            ..n
        },
        _ => Note { lsn: x, ..n },
    }
}

fn set_note(s: &mut State, at: u32, x: u32) {
    s.note = if at == 3 {
        with_kind(s.note, x)
    } else {
        s.note.map(|n| with_field(n, at, x))
    };
}

fn set_frame(s: &mut State, k: u32, x: u32) {
    let Some(f) = s.frames.get_mut((k / 2) as usize) else {
        return;
    };
    if k % 2 == 0 {
        f.page = (x % 65536) as u16;
    } else {
        f.dirty = x != 0;
    }
}

fn set_entry(s: &mut State, k: u32, x: u32) {
    let Some(e) = s.index.get_mut((k / 5) as usize) else {
        return;
    };
    match k % 5 {
        0 => e.last = x,
        1 => e.durable = x,
        2 => e.written = x,
        3 => e.slot = (x % 256) as u8,
        _ => e.backup = x,
    }
}

// The state with x at a position, where x may stand there.
pub fn set(mut s: State, at: u32, x: u32) -> Option<State> {
    if !settable(&s, at, x) {
        return None;
    }
    match at {
        0..=2 => set_count(&mut s, at, x),
        3..=7 => set_note(&mut s, at, x),
        8..=39 => set_frame(&mut s, at - 8, x),
        _ => set_entry(&mut s, at - 40, x),
    }
    Some(s)
}
