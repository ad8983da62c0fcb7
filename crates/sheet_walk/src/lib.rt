// The walk over the lines of sheets, into a read-out by value.
#![tactic(auto)]

ghost use Rattle.std.specs.Prelude.{◌≡◌, cond, eqb};
ghost use Rattle.sheet_pages.specs.Walk.{reading_of};

use sheet_lines::Frame;
use sheet_pages::Reading;

// How many sheets are left with this one: all cards' from the first sheet of a read-out on.
fn sheets_left(all: bool, first: u32, left: u32, cards: u32) -> u32
    ensures { result ≡ cond (eqb first 0) (cond all cards left) left }
{
    if first == 0 && all { cards } else { left }
}

// Reads the sheet of a card, and of a read-out (`all`) the sheets of the cards behind it. The reading stops at the
// first line at fault.
pub fn read_sheets(s: &[u8], card: u32, all: bool) -> Reading
    ensures { result ≡ reading_of all card s.now }
{
    let mut r = sheet_pages::no_readout();
    let mut at: usize = 0;
    let mut due = card;
    let mut first: u32 = 0;
    let mut left: u32 = 1;
    let verdict = 'sheets: loop {
        if left == 0 {
            break 'sheets sheet_pages::end_at(s, at);
        }
        let f = sheet_lines::layout_of(sheet_header_reader::told_at(s, at));
        let width = f.width;
        let line = sheet_header_reader::header_at(f, s, at, due, first);
        let Ok(h) = line else {
            break 'sheets base_refusal::verdict_of(line);
        };
        let n = sheet_header_reader::unraised(h.cards, f.raise);
        let i = due as usize;
        r.cards = h.cards;
        r.sessions[i] = h.session;
        r.bases[i] = h.base;
        left = sheets_left(all, first, left, n);
        at += width + 16 + 5;
        let mut last = Frame::NONE;
        for k in 0..h.count {
            let state = h.base + 1 + k;
            let start = sheet_lines::start_of(due, h.session);
            let read = sheet_frame_reader::frame_at(f, s, at, start, due, n, state, last);
            let Ok(next) = read else {
                break 'sheets base_refusal::verdict_of(read);
            };
            let place = base_limits::ring_place(due, state as usize);
            r.counts[i] = k + 1;
            r.changes[place] = next.change;
            base_rows::put_row(&mut r.entries, place, next.entries);
            last = next;
            at += width + 8 + n as usize * width + 5;
        }
        first = n;
        due += 1;
        left -= 1;
    };
    match verdict {
        Ok(()) => Reading {
            readout: r,
            verdict,
        },
        Err(x) => sheet_pages::nothing_read(x),
    }
}
