// The sheet that a ring of frames holds for a header, written as bytes.
#![tactic(auto)]

ghost use Rattle.std.specs.Prelude.{◌≡◌, ◌+◌, ◌*◌, ◌≤◌, ◌<◌, true, length, Ok};
ghost use Rattle.std.proofs.lemmas.List.Edits.{sets};
ghost use Rattle.sheet_lines.specs.Format.{formats, format_of, Fits};
ghost use Rattle.sheet_lines.specs.Lines.{cards_of, format_for, header_digits, frame_digits, header_allowed};
ghost use Rattle.sheet_pages.specs.Pages.{bytes_in, page_bytes};
ghost use Rattle.sheet_pages.specs.Ring.{ring_page};
ghost use Rattle.sheet_page_writer.specs.Write.{held_frame, ring_rows, wrote_bytes};

use base_limits::Limits;
use base_refusal::Refusal;
use sheet_lines::{Frame, Header, Layout};

// The frame of a card's state, with all 16 entries of its place; zeros for a card that the ring has no place for.
pub fn frame_of<'a>(
    changes: &'a [u32; Limits::FRAMES],
    entries: &'a [u32; Limits::ENTRIES],
    card: u32,
    state: u32,
) -> Frame
    ensures { result ≡ held_frame changes.now entries.now card state }
{
    if Limits::CARDS_U32 <= card {
        return Frame::NONE;
    }
    let place = base_limits::ring_place(card, state as usize);
    Frame {
        change: changes[place],
        entries: base_rows::row_at(entries, place),
    }
}

// Writes a sheet whose header is allowed at the front of a buffer that is long enough.
fn put_sheet<'a, 'b>(
    f: Layout,
    b: &'a mut [u8],
    changes: &'b [u32; Limits::FRAMES],
    entries: &'b [u32; Limits::ENTRIES],
    h: Header,
)
    requires { Fits f × (header_allowed (format_of f) h.card 0 h ≡ true) × (header_digits (format_of f) + 5 + h.count * (frame_digits (format_of f) (cards_of (format_of f) h) + 5) ≤ length b.old) }
    ensures { b.new ≡ sets b.old 0 (bytes_in (format_of f) (ring_rows changes.now entries.now h)) }
{
    let width = f.width;
    let n = sheet_header_reader::unraised(h.cards, f.raise) as usize;
    sheet_line_writer::put_header(f, b, 0, h);
    let line = width + 8 + n * width + 5;
    let mut at: usize = width + 16 + 5;
    for k in 0..h.count {
        let state = h.base + 1 + k;
        let next = frame_of(changes, entries, h.card, state);
        let start = sheet_lines::start_of(h.card, h.session);
        sheet_line_writer::put_frame(f, b, at, start, n, state, next);
        at += line;
    }
}

// Writes a sheet in a layout, where the buffer is long enough for the whole, and answers its length.
fn write_in<'a, 'b>(
    f: Layout,
    b: &'a mut [u8],
    changes: &'b [u32; Limits::FRAMES],
    entries: &'b [u32; Limits::ENTRIES],
    h: Header,
) -> Result<usize, Refusal>
    requires { Fits f × (header_allowed (format_of f) h.card 0 h ≡ true) }
    ensures { (result ≡ (wrote_bytes (Ok tt) (bytes_in (format_of f) (ring_rows changes.now entries.now h)) b.old).answer) × (b.new ≡ (wrote_bytes (Ok tt) (bytes_in (format_of f) (ring_rows changes.now entries.now h)) b.old).buffer) }
{
    let width = f.width;
    let cards = sheet_header_reader::unraised(h.cards, f.raise);
    let length = width + 16 + 5 + h.count as usize * (width + 8 + cards as usize * width + 5);
    if b.len() < length {
        return Err(Refusal::TooShort);
    }
    put_sheet(f, b, changes, entries, h);
    Ok(length)
}

// Writes the sheet that a ring holds for a header that refusal 7 lets pass, in the layout that it picks.
pub fn write_page<'a, 'b>(
    b: &'a mut [u8],
    changes: &'b [u32; Limits::FRAMES],
    entries: &'b [u32; Limits::ENTRIES],
    h: Header,
) -> Result<usize, Refusal>
    requires { header_allowed (format_for formats h) h.card 0 h ≡ true }
    ensures { (result ≡ (wrote_bytes (Ok tt) (page_bytes formats (ring_page changes.now entries.now h)) b.old).answer) × (b.new ≡ (wrote_bytes (Ok tt) (page_bytes formats (ring_page changes.now entries.now h)) b.old).buffer) }
{
    let f = sheet_lines::layout_of(h.cards);
    write_in(f, b, changes, entries, h)
}
