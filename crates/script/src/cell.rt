// The cells of a script, as `docs/SCRIPT.md` lays them out.
use codec::field;
use model::change::Change;
use model::command::Command;
use model::geometry::Heading;

// One of the driver's four buffers.
#[derive(Clone, Copy, Debug, PartialEq, Eq)]
pub enum Place {
    Volume,
    Memory,
    Lent,
    Second,
}

// What a cell asks for.
#[derive(Clone, Copy)]
pub enum Op {
    Make(Heading),
    Restart,
    Call(Command),
    Inspect,
    Sizes,
    Poke(Place),
    Fill(Place),
    SetState,
    Lose,
    Second,
    Forecast,
    Length,
    Archive,
    Unarchive,
    Pages,
    Compare,
    Rehearse,
    Advise,
}

#[derive(Clone, Copy)]
pub struct Cell {
    bytes: [u8; 64],
}

impl Cell {
    pub fn new(bytes: [u8; 64]) -> Cell {
        Cell { bytes }
    }

    // None: the cell is skipped.
    pub fn op(&self) -> Option<Op> {
        Some(match self.bytes[0] {
            1 => Op::Make(Heading::Second),
            2 => Op::Restart,
            10 => Op::Inspect,
            11 => Op::Sizes,
            12 => Op::Poke(Place::Volume),
            13 => Op::Poke(Place::Memory),
            14 => Op::SetState,
            15 => Op::Lose,
            16 => Op::Fill(self.filled()?),
            21 => Op::Make(Heading::First),
            22 => Op::Forecast,
            23 => Op::Length,
            24 => Op::Archive,
            25 => Op::Unarchive,
            26 => Op::Compare,
            27 => Op::Second,
            28 => Op::Poke(Place::Second),
            29 => Op::Pages,
            30 => Op::Rehearse,
            31 => Op::Advise,
            _ => Op::Call(self.command()?),
        })
    }

    pub fn command(&self) -> Option<Command> {
        let page = self.page();
        let place = self.place();
        let fill = self.fill();
        Some(match self.bytes[0] {
            3 => Command::Begin {
                page,
                frame: place,
                fill,
            },
            4 => Command::Load { page, frame: place },
            5 => Command::Change {
                page,
                change: self.change()?,
            },
            6 => Command::Force,
            7 => Command::Write { page },
            8 => Command::Backup { page, slot: place },
            9 => Command::Note,
            17 => Command::Release { page },
            18 => Command::StartCarry,
            19 => Command::Restamp,
            20 => Command::FinishCarry,
            _ => return None,
        })
    }

    fn change(&self) -> Option<Change> {
        let offset = field::u16_at(&self.bytes, 6);
        let length = self.length();
        match self.kind() {
            1 => Some(Change::Format { fill: self.fill() }),
            2 => Some(Change::Put { offset, length }),
            3 => Some(Change::Slide { offset, length }),
            _ => None,
        }
    }

    fn filled(&self) -> Option<Place> {
        match self.first() {
            0 => Some(Place::Volume),
            1 => Some(Place::Memory),
            2 => Some(Place::Lent),
            3 => Some(Place::Second),
            _ => None,
        }
    }

    // The kind of a change or of a second, or the byte of a fill.
    pub fn kind(&self) -> u8 {
        self.bytes[1]
    }

    pub fn page(&self) -> u32 {
        u32::from(field::u16_at(&self.bytes, 2))
    }

    // A frame or a backup slot.
    pub fn place(&self) -> u32 {
        u32::from(field::u16_at(&self.bytes, 4))
    }

    // The length of a change, or the count of bytes that a poke writes.
    pub fn length(&self) -> u8 {
        self.bytes[8]
    }

    pub fn fill(&self) -> u8 {
        self.bytes[9]
    }

    pub fn first(&self) -> u32 {
        field::u32_at(&self.bytes, 12)
    }

    pub fn second(&self) -> u32 {
        field::u32_at(&self.bytes, 60)
    }

    // The four counts of a Make.
    pub fn counts(&self) -> [u32; 4] {
        [16, 20, 24, 28].map(|at| field::u32_at(&self.bytes, at))
    }

    pub fn payload(&self) -> [u8; 44] {
        let mut payload = [0u8; 44];
        payload.copy_from_slice(&self.bytes[16..60]);
        payload
    }

    // The payload's bytes that a poke writes.
    pub fn poked(&self) -> &[u8] {
        let n = usize::from(self.length()).min(44);
        &self.bytes[16..16 + n]
    }
}
