// Lent lists and buffers: places beyond an answer, and all places of a refused call, keep what they held: 9 in a card record, 7 in
// the list of changes lost, a dot in a buffer. Of each only a front is lent.
use crate::changed;
use crate::lists::run;
use base_limits::Limits;
use base_refusal::Refusal;
use cabinet::Cabinet;
use cabinet::recover::RecordsAnswer;
use cabinet_records::CardRecord;

// Writes a text, whether or not that fails.
fn say(rt: &(impl Print + Eprint), text: &str) {
    let _ = base_streams::print(rt, text.as_bytes());
}

// A number is a write of its own, and where that fails it is not told.
fn say_numbers(rt: &(impl Print + Eprint), numbers: [u32; 3]) {
    for n in numbers {
        let _ = rt.print(n);
        say(rt, " ");
    }
    say(rt, "\n");
}

// What was done to how many, or the refusal.
pub fn say_answer(rt: &(impl Print + Eprint), done: &str, r: Result<usize, Refusal>) {
    match r {
        Ok(n) => {
            say(rt, done);
            let _ = rt.print(n);
        }
        Err(q) => {
            say(rt, "refused ");
            let _ = rt.print(u32::from(q));
        }
    }
    say(rt, "\n");
}

// Bytes and the end of a line.
pub fn say_line(rt: &(impl Print + Eprint), bytes: &[u8]) {
    let _ = base_streams::print(rt, bytes);
    say(rt, "\n");
}

fn say_record(rt: &(impl Print + Eprint), r: CardRecord) {
    say_numbers(rt, [r.card, r.stored, r.line]);
}

// The first three records and the last.
fn say_records(rt: &(impl Print + Eprint), records: [CardRecord; Limits::CARDS]) {
    say_record(rt, records[0]);
    say_record(rt, records[1]);
    say_record(rt, records[2]);
    say_record(rt, records[15]);
}

// Fix, lent the first places of a list.
fn fix_within(c: Cabinet, places: usize, list: &mut [u32], room: usize) -> RecordsAnswer {
    let nine = CardRecord {
        card: 9,
        stored: 9,
        line: 9,
    };
    let lent = room.min(list.len());
    c.fix_array([nine; Limits::CARDS], places, &mut list[..lent])
}

// Fix, lent so many first places of 16 records and of a list of three numbers.
fn fix(rt: &(impl Print + Eprint), c: Cabinet, places: usize, room: usize) -> Cabinet {
    let mut list = [7u32; 3];
    let out = fix_within(c, places, &mut list, room);
    say_answer(rt, "fixed ", out.answer.reply);
    say_records(rt, out.records);
    say_numbers(rt, list);
    out.answer.cabinet
}

// The three changes of document 01's worked read-out, stored 2 and 0.
fn worked(rt: &(impl Print + Eprint)) -> Cabinet {
    run(
        rt,
        Cabinet::fresh(2).cabinet,
        "open 0 1\nvote 1 0 1\ntake 1 0\nopen 1 2\nvote 2 0 1\nvote 2 1 1\ntake 2 0\ntake 2 1\nopen 0 1\nvote 3 0 1\ntake 3 0\nstore 0 2\n",
    )
}

// Sample B, two cards and two changes lost: refused while up, with 4 where either list is too short, and again once it is done;
// done where the lists are just long enough, and where they are longer.
fn lists(rt: &(impl Print + Eprint)) {
    let c = fix(rt, worked(rt), 16, 3);
    let c = fix(rt, c.lose(2).cabinet, 1, 2);
    let c = fix(rt, c, 2, 1);
    let c = fix(rt, c, 0, 0);
    fix(rt, c, 3, 2);
    fix(rt, c, 2, 3);
    let c = fix(rt, c, 2, 2);
    fix(rt, c, 16, 3);
    let a = Cabinet::fresh(16).cabinet.lose(Limits::ALL_CARDS);
    let c = fix(rt, a.cabinet, 15, 0);
    fix(rt, c, 16, 0);
}

// Two changes, decided in the order 2, 1, and both lost: a place too few, just as many, and one more, which keeps what it held.
fn rising(rt: &(impl Print + Eprint)) {
    let c = run(
        rt,
        Cabinet::fresh(2).cabinet,
        "open 0 1\nopen 0 2\nvote 2 1 1\nvote 1 0 1\ntake 2 1\ntake 1 0\nlose 3\n",
    );
    fix(rt, c, 2, 1);
    fix(rt, c, 2, 2);
    fix(rt, c, 2, 3);
}

// What a loss ended, as no list leaves it: falling, one twice, one of a change with a frame, the greatest number. Each is listed
// once, rising.
fn ended(rt: &(impl Print + Eprint)) {
    let c = changed(worked(rt).lose(2).cabinet, |c| {
        c.core.ended = [9, 4, 9, 2, 0, 1, 0, Limits::GREATEST_NUMBER];
    });
    run(rt, c, "fix 2 5\nfix 2 6\n");
}

// A card's sheet into the first bytes of a buffer.
fn sheet_within(c: Cabinet, card: u32, b: &mut [u8], room: usize) -> Result<usize, Refusal> {
    match b.get_mut(..room) {
        Some(front) => c.sheet(card, front).reply,
        None => Ok(0),
    }
}

// A card's sheet into so many first bytes of 80.
fn sheet(rt: &(impl Print + Eprint), c: Cabinet, card: u32, room: usize) {
    let mut b = [b'.'; 80];
    let w = sheet_within(c, card, &mut b, room);
    say_answer(rt, "wrote ", w);
    say_line(rt, &b);
}

fn buffers(rt: &(impl Print + Eprint)) {
    let c = worked(rt);
    sheet(rt, c, 0, 80);
    sheet(rt, c, 0, 75);
    sheet(rt, c, 0, 74);
    sheet(rt, c, 1, 80);
    sheet(rt, c, 2, 80);
    let c = run(rt, c, "lose 3\nfix 2 8\nroll 0\n");
    sheet(rt, c, 0, 80);
    sheet(rt, c, 1, 24);
    sheet(rt, Cabinet::fresh(0).cabinet, 0, 80);
}

pub fn check(rt: &(impl Print + Eprint)) {
    lists(rt);
    rising(rt);
    ended(rt);
    buffers(rt);
}
