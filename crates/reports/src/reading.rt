// What the calls that read volumes, and take no state, give back. A refusal stands in them as its number, and no Result
// stands for it: the definitions of chapters 1, 7, 9 and 12 of document 02 give zeros beside it (`forecast_of`,
// `room_of`, `walk_of`), and a comparison has four cases beside the refusal (`mirror_of`).

// What a walk would come to: the count of records replayed, or (count 0) the refusal 23 where it goes below the run.
#[derive(Clone, Copy)]
pub struct Figure {
    pub refusal: u32,
    pub count: u32,
}

// The forecast of a volume: 0 or the refusal, and a figure for each page; zeros past the last page and where it is
// refused.
#[derive(Clone, Copy)]
pub struct Forecast {
    pub refusal: u32,
    pub pages: [Figure; 64],
}

// How two durable logs compare: they agree, one is a beginning of the other and lacks so many records, or the first
// number at which they differ.
#[derive(Clone, Copy)]
pub enum Comparison {
    Refused(u32),
    Agree,
    FirstLacks(u32),
    SecondLacks(u32),
    Differs(u32),
}

// A comparison, and for each page whether a record behind the common beginning is of it; all false where it is refused.
#[derive(Clone, Copy)]
pub struct Compared {
    pub answer: Comparison,
    pub touched: [bool; 64],
}

// How many more records, or notes, a volume takes before the next is refused, and the page that then stands in the way
// (0: none).
#[derive(Clone, Copy)]
pub struct Space {
    pub count: u32,
    pub page: u32,
}

// The room of a volume: 0 or the refusal, and what is left of its log and of its notes; zeros where it is refused.
#[derive(Clone, Copy)]
pub struct Room {
    pub refusal: u32,
    pub log: Space,
    pub notes: Space,
}
