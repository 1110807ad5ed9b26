// What a script works on, a session and four buffers, and what is printed of a cell.
use crate::cell::Place;
use crate::hash;
use model::answer::Answer;
use print::Worded;
use state::next;
use std::{fmt, io};
use store::Store;

// The store, and how much of each buffer is lent to a call.
#[derive(Clone, Copy)]
pub struct Session {
    pub store: Store,
    pub volume: usize,
    pub memory: usize,
    pub lent: usize,
    pub second: usize,
}

// The session at the start: a state of zeros, the smallest memory and a buffer for a page.
pub fn start() -> Session {
    Session {
        store: empty(),
        volume: 0,
        memory: 1280,
        lent: 256,
        second: 0,
    }
}

// The store at the start: its state is all zero.
pub fn empty() -> Store {
    Store {
        state: next::zero(),
    }
}

// A buffer; a call is lent its first bytes, as many as the session says.
#[derive(Drop)]
pub struct Buffer<'a> {
    bytes: &'a mut [u8],
}

impl<'a> Buffer<'a> {
    pub fn new(bytes: &'a mut [u8]) -> Buffer<'a> {
        Buffer { bytes }
    }

    // How much of it is lent where so much is asked for: at most all.
    pub fn lend(&self, size: u32) -> usize {
        self.bytes.len().min(size as usize)
    }

    pub fn lent(&self, size: usize) -> &[u8] {
        let end = self.bytes.len().min(size);
        &self.bytes[..end]
    }

    pub fn lent_mut(&mut self, size: usize) -> &mut [u8] {
        let end = self.bytes.len().min(size);
        &mut self.bytes[..end]
    }

    pub fn fill(&mut self, b: u8) {
        self.bytes.fill(b);
    }

    // Writes bytes from a place on, and says how many; what falls outside is dropped.
    pub fn put(&mut self, at: usize, src: &[u8]) -> usize {
        let Some(rest) = self.bytes.get_mut(at..) else {
            return 0;
        };
        let n = src.len().min(rest.len());
        rest[..n].copy_from_slice(&src[..n]);
        n
    }

    // Holds as much of a slice as it has room for, and says how much.
    pub fn take(&mut self, src: &[u8]) -> usize {
        self.put(0, src)
    }

    fn hash(&self, size: usize) -> u32 {
        hash::bytes(self.lent(size))
    }
}

// A session beside the buffers that it lends.
#[derive(Drop)]
pub struct Workspace<'a> {
    pub session: Session,
    pub volume: Buffer<'a>,
    pub memory: Buffer<'a>,
    pub lent: Buffer<'a>,
    pub second: Buffer<'a>,
}

impl<'a> Workspace<'a> {
    // The session at the start, over these buffers.
    pub fn new(
        volume: &'a mut [u8],
        memory: &'a mut [u8],
        lent: &'a mut [u8],
        second: &'a mut [u8],
    ) -> Workspace<'a> {
        Workspace {
            session: start(),
            volume: Buffer::new(volume),
            memory: Buffer::new(memory),
            lent: Buffer::new(lent),
            second: Buffer::new(second),
        }
    }

    pub fn at(&mut self, place: Place) -> &mut Buffer<'a> {
        match place {
            Place::Volume => &mut self.volume,
            Place::Memory => &mut self.memory,
            Place::Lent => &mut self.lent,
            Place::Second => &mut self.second,
        }
    }

    // A cell's line: what is said of it, and the hashes of volume, memory, lent buffer and state; or SKIP.
    pub fn report(&self, rt: &impl Print, said: Option<Said>) -> io::Result<()> {
        let Some(said) = said else {
            return println!(rt; "SKIP");
        };
        let v = self.volume.hash(self.session.volume);
        let m = self.memory.hash(self.session.memory);
        let u = self.lent.hash(self.session.lent);
        let s = hash::state(&self.session.store.state);
        println!(rt; "{said} v={v} m={m} u={u} s={s}")
    }
}

// What is said of a cell that is not skipped.
#[derive(Clone, Copy)]
pub enum Said {
    Answer(Answer),
    Idle,
    Number(&'static str, u32),
    Numbers(&'static str, u32, u32),
    // A call by its op, its page and its frame or slot, and the first byte of its payload.
    Advice(u32, u32, u32, u8),
}

impl Said {
    pub const OK: Said = Said::Answer(Answer::Done);
}

impl fmt::Display for Said {
    fn fmt<W: fmt::Write>(&self, f: &mut fmt::Formatter<W>) -> fmt::Result {
        match *self {
            Said::Answer(answer) => {
                let words = Worded {
                    answer,
                    nothing: "NOTHING",
                    done: "OK",
                };
                write!(f, "{words}")
            }
            Said::Idle => f.write_str("IDLE"),
            Said::Number(word, n) => write!(f, "{word} {n}"),
            Said::Numbers(word, n, h) => write!(f, "{word} {n} {h}"),
            Said::Advice(op, page, other, x) => write!(f, "ADVISE {op} {page} {other} {x}"),
        }
    }
}
