// The program of a field engineer: reads one volume of at most 32,768 bytes from standard input and prints, a line for
// each page, how Inspect found it. A refusal, of the volume or of a page that the log can no longer rebuild, or a
// longer input, is the only line: all pages are judged before one is printed. All that matters is in `inspect`, which
// is proved; this file only prints.
#![tactic(auto)]

use model::answer::{Answer, Refusal};
use print::input;
use std::io;
use volume::Volume;

// How Inspect finds a page.
fn found(volume: &[u8], page: u32) -> Answer {
    let mut buffer = [0u8; 256];
    inspect::inspect(volume, page, &mut buffer)
}

// The refusal that hides every page's line: a blank page's is that page's line.
fn hiding(volume: &[u8], page: u32) -> Option<u32> {
    match found(volume, page) {
        Answer::Refused(n) if n != u32::from(Refusal::BlankPage) => Some(n),
        _ => None,
    }
}

// The count of pages, or the refusal that is the only line.
fn judged(bytes: &[u8]) -> Result<u32, u32> {
    if 32768 < bytes.len() {
        return Err(u32::from(Refusal::BadVolume));
    }
    let pages = Volume::open(bytes)?.geometry.pages;
    match (1..=pages).find_map(|page| hiding(bytes, page)) {
        Some(n) => Err(n),
        None => Ok(pages),
    }
}

// Prints the line of a page that is blank or repaired.
fn print_page(rt: &impl Print, volume: &[u8], page: u32) -> io::Result<()> {
    match found(volume, page) {
        Answer::Repaired(r) => println!(rt; "{page} {r}"),
        Answer::Refused(_) => println!(rt; "{page} BLANK"),
        Answer::Nothing | Answer::Done => println!(rt; "{page}"),
    }
}

fn print_pages(rt: &impl Print, volume: &[u8], pages: u32) -> io::Result<()> {
    for page in 1..=pages {
        print_page(rt, volume, page)?;
    }
    Ok(())
}

fn main(rt: HostRuntime) -> io::Result<()> {
    let mut space = [0u8; 32769];
    let n = input::fill(&mut rt.stdin(), &mut space)?;
    let bytes = &space[..n];
    match judged(bytes) {
        Ok(pages) => print_pages(&rt, bytes, pages),
        Err(n) => println!(rt; "REFUSED {n}"),
    }
}
