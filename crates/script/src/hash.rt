// The hash of numbers in a row: h starts at 7; a number x makes it (257 h + x + 1) modulo 4,294,967,291.
use model::item::Note;
use model::state::{Entry, Frame, State};

// The hash of no numbers.
pub const START: u32 = 7;

pub fn step(h: u32, x: u32) -> u32 {
    ((u64::from(h) * 257 + u64::from(x) + 1) % 4294967291) as u32
}

// The hash of some numbers more.
pub fn steps<const N: usize>(h: u32, numbers: [u32; N]) -> u32 {
    numbers.iter().fold(h, |h, x| step(h, *x))
}

pub fn bytes(s: &[u8]) -> u32 {
    s.iter().fold(START, |h, x| step(h, u32::from(*x)))
}

fn note(h: u32, p: Option<Note>) -> u32 {
    match p {
        None => steps(h, [0; 5]),
        Some(n) => {
            let head = steps(h, [u32::from(n.kind), n.number]);
            steps(head, [u32::from(n.page), u32::from(n.slot), n.lsn])
        }
    }
}

fn frame(h: u32, f: &Frame) -> u32 {
    steps(h, [u32::from(f.page), u32::from(f.dirty)])
}

fn entry(h: u32, e: &Entry) -> u32 {
    steps(
        h,
        [e.last, e.durable, e.written, u32::from(e.slot), e.backup],
    )
}

pub fn state(s: &State) -> u32 {
    let counts = steps(START, [s.durable, s.pending, s.notes]);
    let frames = s.frames.iter().fold(note(counts, s.note), frame);
    s.index.iter().fold(frames, entry)
}
