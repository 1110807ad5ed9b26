// A log record: its fields read, its layout judged, its change made on a body, its bytes built.
ghost use Rattle.std.specs.Prelude.{◌≡◌, true, ◌&&◌, ◌+◌, ◌-◌, ◌/◌, ◌%◌, ◌≤◌, ◌<◌, eqb, length};
ghost use Rattle.item.specs.Record.{head_of};
ghost use Rattle.model.specs.Bytes.{part, all_zero, splice};
ghost use Rattle.model.specs.Change.{fits, change_fits};
ghost use Rattle.model.specs.Item.{record_of, record_layout, record_for, padded};
ghost use Rattle.model.specs.Item.{change_in, apply_record, encode_change};

use crate::change::{self, FORMAT, PUT, SLIDE};
use codec::{field, part};
use model::change::Change;
use model::item::LogRecord;
use sums::check::Check;
use sums::checksum::WordSum;

// A record has this many bytes of payload.
const PAYLOAD: usize = 44;

// Reads a record's fields.
pub fn read(r: &[u8]) -> LogRecord
    ensures { result ≡ record_of r.now }
{
    LogRecord {
        lsn: field::u32_at(r, 0),
        prev: field::u32_at(r, 4),
        page: field::u16_at(r, 8),
        kind: field::byte(r, 10),
        length: field::byte(r, 11),
        offset: field::u16_at(r, 12),
        fill: field::byte(r, 14),
    }
}

// The payload from a place on is zero, tested byte by byte. It is called for fewer than eight bytes, where a call of
// `part::zero` takes more than twice the instructions.
fn short(r: &[u8], from: usize) -> bool
    requires { (60 ≤ length r.now) × (from ≤ 60) }
    ensures { result ≡ all_zero (part r.now from (60 - from)) }
{
    for i in from..60 {
        if r[i] != 0 {
            return false;
        }
    }
    true
}

// The payload past n bytes is zero: eight bytes a turn, and the last eight, some of which may have been read before. No
// `for` over places: a turn takes eight.
fn padding(r: &[u8], n: usize) -> bool
    requires { 60 ≤ length r.now }
    ensures { result ≡ all_zero (part r.now (16 + n) (44 - n)) }
{
    if PAYLOAD <= n {
        return true;
    }
    let mut i = 16 + n;
    if 52 < i {
        return short(r, i);
    }
    while i < 52 {
        if field::eight(r, i) != 0 {
            return false;
        }
        i += 8;
    }
    field::eight(r, 52) == 0
}

// The layout: the kind's rule, byte 15 and the payload past the length. The test never holds: by it the compiler knows
// that there are 60 bytes, and leaves out the tests of the fields.
pub fn layout(r: &[u8]) -> bool
    requires { 60 ≤ length r.now }
    ensures { result ≡ record_layout r.now }
{
    if r.len() < 60 {
        return false;
    }
    let e = read(r);
    let obeys = change::fits(
        u32::from(e.kind),
        u32::from(e.length),
        u32::from(e.offset),
        u32::from(e.fill),
    );
    obeys & ((field::byte(r, 15) == 0) & padding(r, usize::from(e.length)))
}

// The change that a record holds. Its kind is 1 to 3 wherever it is asked.
fn held(e: LogRecord) -> Change
    ensures { result ≡ change_in e }
{
    let LogRecord {
        kind,
        length,
        offset,
        fill,
        ..
    } = e;
    match u32::from(kind) {
        FORMAT => Change::Format { fill },
        PUT => Change::Put { offset, length },
        _ => Change::Slide { offset, length },
    }
}

// Makes a record's change on a body.
pub fn replay(r: &[u8], body: &mut [u8])
    requires { (length r.now ≡ 64) × (record_layout r.now ≡ true) × (length body.old ≡ 244) }
    ensures { body.new ≡ apply_record r.now body.old }
{
    let c = held(read(r));
    change::apply(c, &r[16..60], body);
}

// The record of a change.
fn describe(lsn: u32, prev: u32, page: u32, c: Change) -> LogRecord
    requires { page < 65536 }
    ensures { result ≡ record_for lsn prev page c }
{
    let (kind, length, offset, fill) = change::numbers(c);
    LogRecord {
        lsn,
        prev,
        page: page as u16,
        kind,
        length,
        offset,
        fill,
    }
}

// Writes the fields before the payload.
fn fields(dst: &mut [u8], e: LogRecord)
    requires { length dst.old ≡ 64 }
    ensures { dst.new ≡ splice dst.old 0 (head_of e) }
{
    field::put_u32(dst, 0, e.lsn);
    field::put_u32(dst, 4, e.prev);
    field::put_u16(dst, 8, e.page);
    dst[10] = e.kind;
    dst[11] = e.length;
    field::put_u16(dst, 12, e.offset);
    dst[14] = e.fill;
    dst[15] = 0;
}

// Writes the payload's first n bytes, and zeros behind them.
fn pad(dst: &mut [u8], payload: [u8; 44], n: usize)
    requires { (length dst.old ≡ 64) × (n ≤ 44) }
    ensures { dst.new ≡ splice dst.old 16 (padded n payload) }
{
    part::put(dst, 16, &payload[0..n]);
    dst[16 + n..60].fill(0);
}

// Builds the record of a change, its checksum set. What the payload holds past the change's length is not stored.
pub fn encode(dst: &mut [u8], lsn: u32, prev: u32, page: u32, c: Change, payload: [u8; 44])
    requires { (length dst.old ≡ 64) × (fits c ≡ true) × (page < 65536) }
    ensures { dst.new ≡ encode_change lsn prev page c payload }
{
    let e = describe(lsn, prev, page, c);
    let n = usize::from(e.length);
    fields(dst, e);
    pad(dst, payload, n);
    WordSum::set(dst, 60);
}

// The kind's rule and byte 15, by the number in bytes 12 to 15: offset, fill and byte 15. Of a put and a slide one test
// does for all three, since a number that is a right offset has no byte above it.
fn ruled(kind: u32, length: u32, word: u32) -> bool
    ensures { result ≡ (change_fits kind length (word % 65536) (word / 65536 % 256) && eqb (word / 16777216) 0) }
{
    match kind {
        FORMAT => (length == 0) & ((word % 65536 == 0) & (word / 16777216 == 0)),
        PUT | SLIDE => {
            let room = 244u32.saturating_sub(length);
            ((1 <= length) & (length <= 44)) & (word <= room)
        }
        _ => false,
    }
}

// The layout by words, for the one pass over a log: a function of its own, so that the compiler expands it there.
pub fn laid_out(r: &[u8]) -> bool
    requires { length r.now ≡ 64 }
    ensures { result ≡ record_layout r.now }
{
    let v = field::four(r, 8);
    let word = field::four(r, 12);
    let length = v / 16777216;
    ruled(v / 65536 % 256, length, word) && padding(r, length as usize)
}
