// The writer of one sheet, lent a ring with any numbers and told any header: 7, then 9, then 4. All other places of the ring hold
// 77, and the buffer dots.
use base_limits::Limits;
use base_refusal::Refusal;
use sheet_lines::Header;
use sheet_writer::write_sheet;

// A frame of card 0 of two: its change, its own dependency and the other card's.
#[derive(Clone, Copy, Default)]
struct Row {
    change: u32,
    own: u32,
    other: u32,
}

fn header(session: u32, card: u32, cards: u32, base: u32, count: u32) -> Header {
    Header {
        session,
        card,
        cards,
        base,
        count,
    }
}

fn changes(rows: [Row; 2]) -> [u32; Limits::FRAMES] {
    let mut to = [77u32; Limits::FRAMES];
    to[1] = rows[0].change;
    to[2] = rows[1].change;
    to
}

fn entries(rows: [Row; 2]) -> [u32; Limits::ENTRIES] {
    let mut to = [77u32; Limits::ENTRIES];
    to[16] = rows[0].own;
    to[17] = rows[0].other;
    to[32] = rows[1].own;
    to[33] = rows[1].other;
    to
}

// Writes into the first bytes of a buffer.
fn write_within(rows: [Row; 2], h: Header, b: &mut [u8], room: usize) -> Result<usize, Refusal> {
    let c = changes(rows);
    let e = entries(rows);
    match b.get_mut(..room) {
        Some(front) => write_sheet(front, &c, &e, h),
        None => Ok(0),
    }
}

// Writes into so many first bytes of 80.
fn write(rt: &(impl Print + Eprint), rows: [Row; 2], h: Header, room: usize) {
    let mut b = [b'.'; 80];
    let w = write_within(rows, h, &mut b, room);
    crate::lent::say_answer(rt, "wrote ", w);
    crate::lent::say_line(rt, &b);
}

// One frame.
fn one(change: u32, own: u32, other: u32) -> [Row; 2] {
    [Row { change, own, other }, Row::default()]
}

// The header alone.
fn head(rt: &(impl Print + Eprint), session: u32, card: u32, cards: u32, base: u32, count: u32) {
    write(
        rt,
        one(0, 0, 0),
        header(session, card, cards, base, count),
        80,
    );
}

// The first frames of card 0: into enough bytes and into too few.
fn frames(rt: &(impl Print + Eprint), rows: [Row; 2], count: u32) {
    write(rt, rows, header(1, 0, 2, 0, count), 80);
    write(rt, rows, header(1, 0, 2, 0, count), 10);
}

// A second frame after one of change 5 that hangs on this state of the other card.
fn two(rt: &(impl Print + Eprint), other: u32, next_change: u32, next_other: u32) {
    let first = Row {
        change: 5,
        own: 1,
        other,
    };
    let next = Row {
        change: next_change,
        own: 2,
        other: next_other,
    };
    frames(rt, [first, next], 2);
}

// Headers at their limits, and those that 7 refuses.
fn heads(rt: &(impl Print + Eprint)) {
    head(rt, Limits::GREATEST_NUMBER, 0, 1, 0, 0);
    head(rt, 1, 15, 16, 0, 0);
    head(rt, 1, 0, 1, Limits::GREATEST_STATE, 0);
    head(rt, 0, 0, 1, 0, 0);
    head(rt, 1, 1, 1, 0, 0);
    head(rt, 1, 16, 16, 0, 0);
    head(rt, 1, Limits::GREATEST_NUMBER, 16, 0, 0);
    head(rt, 1, 0, 0, 0, 0);
    head(rt, 1, 0, Limits::CARDS_U32 + 1, 0, 0);
    head(rt, 1, 0, 1, 0, Limits::IN_HAND_U32 + 1);
    head(rt, 1, 0, 1, Limits::GREATEST_STATE + 1, 0);
    head(rt, 1, 0, 1, Limits::GREATEST_STATE, 1);
    head(rt, 1, 0, 1, Limits::GREATEST_NUMBER, 1);
    head(
        rt,
        1,
        0,
        1,
        Limits::GREATEST_NUMBER,
        Limits::GREATEST_NUMBER,
    );
}

// Frames that 9 refuses, and those that it just does not.
fn kinds(rt: &(impl Print + Eprint)) {
    frames(rt, one(1, 1, 60000), 1);
    frames(rt, one(0, 1, 0), 1);
    frames(rt, one(1, 0, 0), 1);
    frames(rt, one(1, 2, 0), 1);
    frames(rt, one(1, 1, 60001), 1);
    frames(rt, one(1, 1, 65536), 1);
    two(rt, 0, Limits::GREATEST_NUMBER, 60000);
    two(rt, 8, 5, 8);
    two(rt, 8, 4, 8);
    two(rt, 8, 6, 7);
    two(rt, 8, 6, 0);
}

pub fn check(rt: &(impl Print + Eprint)) {
    heads(rt);
    kinds(rt);
}
