// Check 2 of `checklist`: the plug pulled while a record is being stored, at every byte of it. Nothing is proved of it
// but that it is safe and ends.
#![tactic(auto)]

use checklist_steps::disk::{Image, Memory, Volume};
use checklist_steps::steps::Live;
use checklist_steps::verdict::Seen;
use checklist_steps::{disk, verdict};
use model::answer::Answer;
use std::io;
use store::Store;

// A line, written.
fn first(rt: &impl Print) -> io::Result<Live> {
    let mut live = Live::opened(rt, [0; disk::SIZE], [0; 1536]).done()?;
    live.write(rt, 1)?;
    Ok(live)
}

// What a restart and an Inspect show: the page without the line or with it, a refusal, or anything else.
#[derive(Clone, Copy, Debug, PartialEq, Eq)]
enum Outcome {
    Without,
    With,
    Refused,
    Other,
}

// The page as Inspect gives it, where it is not refused.
fn inspected(v: &Volume) -> Option<Image> {
    let mut buffer = [0u8; 256];
    match Store::inspect(v, 1, &mut buffer) {
        Answer::Refused(_) => None,
        _ => Some(buffer),
    }
}

fn shown(v: &Volume, without: &Image, with: &Image) -> Outcome {
    let mut memory: Memory = [0; 1536];
    let restarted = Store::restart(v, &mut memory).answer;
    if matches!(restarted, Answer::Refused(_)) {
        return Outcome::Refused;
    }
    match inspected(v) {
        None => Outcome::Refused,
        Some(page) if page == *with => Outcome::With,
        Some(page) if page == *without => Outcome::Without,
        Some(_) => Outcome::Other,
    }
}

// The volume as a cut leaves it when so many bytes of the record are stored.
fn cut(old: &Volume, new: &Volume, stored: u8) -> Volume {
    let mut v = *old;
    let end = disk::RECORD + usize::from(stored);
    disk::give_back(&mut v, new, disk::RECORD, end);
    v
}

// A cut, shown in full.
fn example(rt: &impl Print, old: &Volume, live: &Live, stored: u8) -> io::Result<()> {
    print!(rt;
        "  Damage: the plug is pulled in that last Force, with {stored} of the record's 64 bytes stored.\n   "
    )?;
    let mut trial = *live;
    trial.volume = cut(old, &live.volume, stored);
    trial.restart(rt)?;
    let mut buffer = [0u8; 256];
    verdict::inspect(rt, &trial.volume, 1, &mut buffer).said
}

// What each of the 65 cuts shows.
fn all(old: &Volume, new: &Volume) -> [Outcome; 65] {
    let mut without = [0u8; 256];
    let mut with = [0u8; 256];
    Store::inspect(old, 1, &mut without);
    Store::inspect(new, 1, &mut with);
    let mut all = [Outcome::Other; 65];
    for stored in 0..65u8 {
        all[usize::from(stored)] = shown(&cut(old, new, stored), &without, &with);
    }
    all
}

// What all the cuts left.
fn summary(rt: &impl Print, all: &[Outcome; 65]) -> io::Result<bool> {
    let count = |what: Outcome| all.iter().filter(|s| **s == what).count();
    let with = count(Outcome::With);
    let without = count(Outcome::Without);
    let refused = count(Outcome::Refused);
    let other = count(Outcome::Other);
    println!(rt; "  The plug is pulled after each byte, from none of the 64 to all: 65 cuts.")?;
    print!(rt; "    The line is kept: {with}. It is not kept: {without}.")?;
    println!(rt; " Refused: {refused}. Any other text: {other}.")?;
    Ok((0 < without) & (0 < with) & (refused == 0) & (other == 0))
}

pub fn check(rt: &impl Print) -> io::Result<bool> {
    println!(rt; "\nCHECK 2. The plug pulled while a log record is being stored, at every byte")?;
    let mut live = first(rt)?;
    // as it was before the Force, which stores nothing else
    let old = live.volume;
    live.put(rt, 1, 44, b"06:18 bed 4 is free")?;
    let mut seen = Seen {
        before: [0; 256],
        after: [0; 256],
    };
    seen.before(rt, &live.volume)?;
    example(rt, &old, &live, 40)?;
    example(rt, &old, &live, 64)?;
    summary(rt, &all(&old, &live.volume))
}
