// What bench/run.sh measures, exported to Rust: each call once, on a cabinet that was forged for it, and parts by themselves.
// A cabinet has so many cards, and on each so many states in hand, each made by a change of its own.
#![tactic(auto)]

use base_limits::Limits;
use cabinet::{Answer, Cabinet};
use cabinet_layout::{Phase, Slot};
use cabinet_records::CardRecord;
use sheet_lines::Header;

const FRAMES: u32 = Limits::FRAMES as u32;

const ENTRIES: u32 = Limits::ENTRIES as u32;

// The changes that made the states: state x of card c was made by change 16 * x + c.
fn changes(cards: u32, states: u32) -> [u32; Limits::FRAMES] {
    let mut out = [0u32; Limits::FRAMES];
    for p in 0..FRAMES {
        let c = p / Limits::IN_HAND_U32;
        let x = p % Limits::IN_HAND_U32 + 1;
        if x <= states && c < cards {
            out[base_limits::ring_place(c, x as usize)] = x * Limits::CARDS_U32 + c;
        }
    }
    out
}

// The vectors of these states: each change wrote its card alone.
fn entries(changes: &[u32; Limits::FRAMES]) -> [u32; Limits::ENTRIES] {
    let mut out = [0u32; Limits::ENTRIES];
    for p in 0..Limits::FRAMES {
        let card = changes[p] % Limits::CARDS_U32;
        out[p * Limits::CARDS + card as usize] = changes[p] / Limits::CARDS_U32;
    }
    out
}

// The number on each card that is there.
fn numbers(cards: u32, n: u32) -> [u32; Limits::CARDS] {
    let mut out = [0u32; Limits::CARDS];
    for place in out.iter_mut().take(cards as usize) {
        *place = n;
    }
    out
}

// The cabinet in that phase, with that stored number on each card and with that change in its first place. While rolling
// the card 0 alone is not rolled.
fn forged(cards: u32, states: u32, stored: u32, first: Slot, phase: Phase) -> Cabinet {
    let mut c = Cabinet::fresh(cards).cabinet;
    c.changes = changes(cards, states);
    c.entries = entries(&c.changes);
    c.core.held = numbers(cards, states);
    c.core.reached = c.core.held;
    c.core.stored = numbers(cards, stored);
    c.core.slots[0] = first;
    c.core.head = cabinet_layout::counted(cabinet_layout::head_of(1, cards, phase), 1000);
    c.core.rolled = base_bits::without(base_bits::all_below(cards), 0);
    c
}

// The cabinet that is up with every state stored, and with that change in its first place.
fn holding(cards: u32, states: u32, first: Slot) -> Cabinet {
    forged(cards, states, states, first, Phase::Up)
}

// The cabinet with that stored number on each card and with no change, in that phase.
fn idle(cards: u32, states: u32, stored: u32, phase: Phase) -> Cabinet {
    forged(cards, states, stored, cabinet_layout::free_slot(), phase)
}

// The card 0, not known beforehand.
fn card(at: u32) -> u32 {
    at / ENTRIES
}

// A change that reads every card, or writes every card, with those votes.
fn change(number: u32, cards: u32, reads: bool, yes: u16) -> Slot {
    let all = base_bits::all_below(cards);
    let mut o = cabinet_layout::free_slot();
    o.number = number;
    o.reads = if reads { all } else { 0 };
    o.writes = if reads { 0 } else { all };
    o.yes = yes;
    o
}

// A number out of every part of a cabinet, at places not known beforehand, so that all that a call wrote is looked at.
fn looked(c: &Cabinet, at: u32) -> u32 {
    let i = (at % Limits::CARDS_U32) as usize;
    let k = (at % Limits::SLOTS as u32) as usize;
    let core = &c.core;
    let o = &core.slots[k];
    let h = &core.head;
    let frames = c.entries[(at % ENTRIES) as usize] ^ c.changes[(at % FRAMES) as usize];
    let vectors = core.last[i].entries[i] ^ core.pending[i].entries[i] ^ o.vector[i];
    let sets = u32::from(o.reads ^ o.writes ^ o.yes ^ o.taken ^ core.rolled);
    let numbers = core.base[i]
        ^ core.stored[i]
        ^ core.held[i]
        ^ core.reached[i]
        ^ core.line[i]
        ^ core.ended[k]
        ^ core.writing[i];
    let head = h.session ^ h.cards ^ h.latest ^ h.phase as u32;
    frames ^ vectors ^ sets ^ numbers ^ o.number ^ head
}

// What was looked at in the cabinet handed back; 1000000 after a refusal.
fn seen<T: Drop>(a: Answer<T>, at: u32) -> u32 {
    let number = looked(&a.cabinet, at);
    if a.reply.is_ok() { number } else { 1000000 }
}

// Nothing but the making of the cabinet.
#[unsafe(no_mangle)]
pub extern "C" fn bench_nothing(cards: u32, states: u32, reads: bool, at: u32) -> u32 {
    looked(&idle(cards, states, states, Phase::Up), at)
}

#[unsafe(no_mangle)]
pub extern "C" fn bench_fresh(cards: u32, at: u32) -> u32 {
    seen(Cabinet::fresh(cards), at)
}

#[unsafe(no_mangle)]
pub extern "C" fn bench_open(cards: u32, states: u32, reads: bool, at: u32) -> u32 {
    let c = idle(cards, states, states, Phase::Up);
    let o = change(0, cards, reads, 0);
    seen(c.open(o.reads, o.writes), at)
}

// The vote that decides a change of all cards.
#[unsafe(no_mangle)]
pub extern "C" fn bench_vote(cards: u32, states: u32, reads: bool, at: u32) -> u32 {
    let others = base_bits::without(base_bits::all_below(cards), 0);
    let c = holding(cards, states, change(1000, cards, reads, others));
    seen(c.vote(1000, card(at), true), at)
}

#[unsafe(no_mangle)]
pub extern "C" fn bench_take(cards: u32, states: u32, reads: bool, at: u32) -> u32 {
    let all = base_bits::all_below(cards);
    let c = holding(cards, states, change(1000, cards, reads, all));
    seen(c.take(1000, card(at)), at)
}

#[unsafe(no_mangle)]
pub extern "C" fn bench_withdraw(cards: u32, states: u32, reads: bool, at: u32) -> u32 {
    let c = holding(cards, states, change(1000, cards, reads, 0));
    seen(c.withdraw(1000), at)
}

#[unsafe(no_mangle)]
pub extern "C" fn bench_store(cards: u32, states: u32, reads: bool, at: u32) -> u32 {
    let c = idle(cards, states, 0, Phase::Up);
    seen(c.store(card(at), 0), at)
}

// A write up to the state reached begins.
#[unsafe(no_mangle)]
pub extern "C" fn bench_begin(cards: u32, states: u32, reads: bool, at: u32) -> u32 {
    let c = idle(cards, states, 0, Phase::Up);
    seen(c.begin(card(at), states), at)
}

// The write up to the state reached ends with it.
#[unsafe(no_mangle)]
pub extern "C" fn bench_end(cards: u32, states: u32, reads: bool, at: u32) -> u32 {
    let mut c = idle(cards, states, 0, Phase::Up);
    c.core.writing[0] = states.wrapping_add(1);
    seen(c.end(card(at), states), at)
}

// Every state is stored, so that each line is climbed to the end.
#[unsafe(no_mangle)]
pub extern "C" fn bench_trim(cards: u32, states: u32, reads: bool, at: u32) -> u32 {
    let c = idle(cards, states, states, Phase::Up);
    seen(c.trim(), at)
}

// Of that change; there is none in an empty cabinet.
#[unsafe(no_mangle)]
pub extern "C" fn bench_safe(cards: u32, states: u32, change: u32, at: u32) -> u32 {
    let c = idle(cards, states, states, Phase::Up);
    seen(c.safe(change), at)
}

// All cards, with a decided change open.
#[unsafe(no_mangle)]
pub extern "C" fn bench_lose(cards: u32, states: u32, reads: bool, at: u32) -> u32 {
    let all = base_bits::all_below(cards);
    let c = holding(cards, states, change(1000, cards, reads, all));
    seen(c.lose(all), at)
}

// With that stored number on each card: from 0 every state is lost.
#[unsafe(no_mangle)]
pub extern "C" fn bench_fix(
    cards: u32,
    states: u32,
    stored: u32,
    at: u32,
    list: &mut [u32],
) -> u32 {
    let c = idle(cards, states, stored, Phase::Down);
    let zero = CardRecord {
        card: 0,
        stored: 0,
        line: 0,
    };
    let out = c.fix_array([zero; Limits::CARDS], Limits::CARDS, list);
    seen(out.answer, at)
}

// The last card rolled.
#[unsafe(no_mangle)]
pub extern "C" fn bench_roll(cards: u32, states: u32, reads: bool, at: u32) -> u32 {
    let c = idle(cards, states, states, Phase::Rolling);
    seen(c.roll(card(at)), at)
}

// The sheet of card 0.
#[unsafe(no_mangle)]
pub extern "C" fn bench_sheet(cards: u32, states: u32, at: u32, buffer: &mut [u8]) -> u32 {
    let c = idle(cards, states, states, Phase::Up);
    seen(c.sheet(card(at), buffer), at)
}

// From the sheets of all cards, joined.
#[unsafe(no_mangle)]
pub extern "C" fn bench_restart(bytes: &[u8], at: u32) -> u32 {
    seen(cabinet_restart::restart(bytes), at)
}

// The writer by itself, lent a ring: the length of the sheet of card 0, or 0.
#[unsafe(no_mangle)]
pub extern "C" fn bench_write_sheet<'a, 'b>(
    buffer: &'a mut [u8],
    changes: &'b [u32; Limits::FRAMES],
    entries: &'b [u32; Limits::ENTRIES],
    cards: u32,
    count: u32,
) -> usize {
    let h = Header {
        session: 1,
        card: 0,
        cards,
        base: 0,
        count,
    };
    sheet_writer::write_sheet(buffer, changes, entries, h).unwrap_or(0)
}
