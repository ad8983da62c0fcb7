// Read-outs and single sheets: worked, damaged, cut, too long. A record of standard input is a line `WORD CARD ROOM TOTAL COUNT`,
// of 4, 2, 5, 5 and 5 bytes, and as many bytes as the count, filled up to the total with digits 0.
// `line`: they are a read-out, and what the line program prints is printed. `page`: they are the sheet of the card. What is read
// is printed, how many numbers of the read-out handed back are not 0, and the sheet as it is written again into so much room.
#![tactic(auto)]

ghost use Rattle.std.specs.Prelude.{◌<◌};

use base_limits::Limits;
use base_refusal::Refusal;
use sheet_lines::Header;
use sheet_pages::Readout;
use std::fmt::Display;
use std::io;

// A byte that no sheet has: what a buffer is filled with before it is written to.
const UNTOUCHED: u8 = 170;

// The number at a place of a record's line, and 0 where there is none.
fn number_at(line: &[u8], at: usize) -> u32 {
    base_reading::read(line, at).map_or(0, |(value, _)| value)
}

// The number at a place, and 0 where there is none.
fn entry(s: &[u32], i: usize) -> u32 {
    s.get(i).copied().unwrap_or(0)
}

// The place of a card's frame k.
fn place_of(card: u32, base: u32, k: usize) -> usize
    ensures { result < 768 }
{
    let state = base as usize + 1 + k % Limits::IN_HAND;
    base_limits::ring_place(card % Limits::CARDS_U32, state)
}

// Writes bytes, whether or not that fails.
fn say_bytes(rt: &(impl Print + Eprint), bytes: &[u8]) {
    let _ = base_streams::print(rt, bytes);
}

// Writes a text, whether or not that fails.
fn say(rt: &(impl Print + Eprint), text: &str) {
    say_bytes(rt, text.as_bytes());
}

// A number is a write of its own, and where that fails it is not told.
fn say_number(rt: &(impl Print + Eprint), n: impl Display + Drop) {
    say(rt, " ");
    let _ = rt.print(n);
}

fn say_refusal(rt: &(impl Print + Eprint), r: Refusal) {
    say(rt, "refused");
    say_number(rt, u32::from(r));
    say(rt, "\n");
}

// A dependency: none, or a state.
fn say_entry(rt: &(impl Print + Eprint), e: u32) {
    match e.checked_sub(1) {
        None => say(rt, " -"),
        Some(state) => say_number(rt, state),
    }
}

fn say_row(rt: &(impl Print + Eprint), row: &[u32], cards: usize) {
    for e in row.iter().take(cards) {
        say_entry(rt, *e);
    }
    say(rt, "\n");
}

// Of each frame the change and the vector.
fn say_frames(rt: &(impl Print + Eprint), r: &Readout, h: Header) {
    for k in 0..h.count as usize {
        let place = place_of(h.card, h.base, k);
        say_number(rt, r.changes[place]);
        say_row(rt, &r.entries[place * Limits::CARDS..], h.cards as usize);
    }
}

// The header that a read-out has of a card.
fn header_of(r: &Readout, card: u32) -> Header {
    let i = card as usize;
    Header {
        session: entry(&r.sessions, i),
        card,
        cards: r.cards,
        base: entry(&r.bases, i),
        count: entry(&r.counts, i),
    }
}

fn say_sheet(rt: &(impl Print + Eprint), r: &Readout, h: Header) {
    say(rt, "read");
    say_number(rt, h.session);
    say_number(rt, h.cards);
    say_number(rt, h.base);
    say_number(rt, h.count);
    say(rt, "\n");
    say_frames(rt, r, h);
}

// How many numbers are not 0.
fn filled(s: &[u32]) -> usize {
    s.iter().filter(|n| **n != 0).count()
}

// How many sessions, bases, counts, changes and entries are not 0: those of one sheet, or none where it is refused.
fn say_held(rt: &(impl Print + Eprint), r: &Readout) {
    say(rt, "held");
    say_number(rt, filled(&r.sessions));
    say_number(rt, filled(&r.bases));
    say_number(rt, filled(&r.counts));
    say_number(rt, filled(&r.changes));
    say_number(rt, filled(&r.entries));
    say(rt, "\n");
}

// How many bytes are not as they were.
fn say_altered(rt: &(impl Print + Eprint), rest: &[u8]) {
    say(rt, "altered");
    say_number(rt, rest.iter().filter(|b| **b != UNTOUCHED).count());
    say(rt, "\n");
}

fn say_written(rt: &(impl Print + Eprint), b: &[u8], n: usize) {
    if let Some((sheet, rest)) = b.split_at_checked(n) {
        say(rt, "wrote\n");
        say_bytes(rt, sheet);
        say_altered(rt, rest);
    }
}

// Writes a sheet to the first bytes of a buffer.
fn write_within(b: &mut [u8], room: usize, r: &Readout, h: Header) -> Result<usize, Refusal> {
    match b.get_mut(..room) {
        Some(front) => sheet_writer::write_sheet(front, &r.changes, &r.entries, h),
        None => Ok(0),
    }
}

fn write_again(rt: &(impl Print + Eprint), r: &Readout, h: Header, room: usize) {
    let mut b = [UNTOUCHED; 4096];
    match write_within(&mut b, room, r, h) {
        Ok(n) => say_written(rt, &b, n),
        Err(x) => {
            say_refusal(rt, x);
            say_altered(rt, &b);
        }
    }
}

fn page(rt: &(impl Print + Eprint), s: &[u8], card: u32, room: usize) {
    let read = sheet_reader::read_sheet(s, card);
    let r = &read.readout;
    match read.verdict {
        Ok(()) => {
            let h = header_of(r, card);
            say_sheet(rt, r, h);
            say_held(rt, r);
            write_again(rt, r, h, room);
        }
        Err(x) => {
            say_refusal(rt, x);
            say_held(rt, r);
        }
    }
}

fn readout(rt: &(impl Print + Eprint), s: &[u8]) {
    let t = cabinet_report::line_text(s);
    if let Some(text) = t.bytes.get(..t.length) {
        say_bytes(rt, text);
    }
}

// Runs a record, whose bytes stand first in the input.
fn run(rt: &(impl Print + Eprint), word: u8, card: u32, room: usize, input: &[u8], total: usize) {
    if let Some(s) = input.get(..total) {
        if word == b'l' {
            readout(rt, s);
        } else {
            page(rt, s, card, room);
        }
    }
}

// Reads n bytes to the front of the input, or as many as there are.
fn fill(rt: &(impl io::Input + Eprint), input: &mut [u8], n: usize) {
    if let Some(front) = input.get_mut(..n) {
        let _ = base_streams::read_full(rt, front);
    }
}

// Reads one record and runs it; false where there is none left.
fn step(rt: &(impl io::Input + Print + Eprint)) -> bool {
    let mut line = [0u8; 26];
    let (26, _) = base_streams::read_full(rt, &mut line) else {
        return false;
    };
    let n = number_at(&line, 20) as usize;
    let total = number_at(&line, 14) as usize;
    let room = number_at(&line, 8) as usize;
    let card = number_at(&line, 5);
    // longer than any that is read
    let mut input = [b'0'; Limits::LONGEST + 4];
    fill(rt, &mut input, n);
    run(rt, line[0], card, room, &input, total);
    true
}

fn main(rt: HostRuntime) {
    for _ in 0..65536 {
        if !step(&rt) {
            break;
        }
    }
}
