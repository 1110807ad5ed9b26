// The two lists that come with the program. Both have the same 336 changes: 16 pages of a thread, each begun and then
// changed 20 times.
ghost use Rattle.std.specs.Prelude.{◌≤◌};

// At most 1,024 events, a byte each. A Vec could fail to grow, which the program has no answer for.
#[derive(Clone, Copy)]
pub struct List {
    bytes: [u8; 1024],
    len: usize,
    ghost fits: { len ≤ 1024 },
}

impl List {
    fn new() -> List {
        List {
            bytes: [0; 1024],
            len: 0,
        }
    }

    pub fn events(&self) -> &[u8] {
        &self.bytes[..self.len]
    }

    // One event more; none where the list is full.
    fn push(&mut self, event: u8) {
        if self.len < 1024 {
            self.bytes[self.len] = event;
            self.len += 1;
        }
    }

    fn read(&mut self, page: u8) {
        self.push(page % 128);
    }

    fn change(&mut self, page: u8) {
        self.push(page % 128 + 128);
    }

    // A page is changed 20 times more; after each change the reader sees it.
    fn stay(&mut self, page: u8) {
        for _ in 0..20u32 {
            self.change(page);
            self.read(page);
        }
    }

    fn changes(&mut self, page: u8, count: u32) {
        for _ in 0..count {
            self.change(page);
        }
    }

    // Seven changes of a page, and then all pages from the first are read.
    fn reread(&mut self, page: u8) {
        self.changes(page, 7);
        for p in 1..=page {
            self.read(p);
        }
    }
}

// After each change the newest page is read; where a page begins, first the one before it.
pub fn stays() -> List {
    let mut list = List::new();
    for page in 1..=16u8 {
        list.change(page);
        if 1 < page {
            list.read(page - 1);
        }
        list.read(page);
        list.stay(page);
    }
    list
}

pub fn rereads() -> List {
    let mut list = List::new();
    for page in 1..=16u8 {
        list.reread(page);
        list.reread(page);
        list.reread(page);
    }
    list
}
