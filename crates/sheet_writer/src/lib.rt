// The writer of one sheet, which a ring of frames holds for a header: that of a read-out, lent.
#![tactic(auto)]

ghost use Rattle.std.specs.Prelude.{◌≡◌, ◌+◌, true};
ghost use Rattle.sheet_lines.specs.Format.{format_of, Fits};
ghost use Rattle.sheet_lines.specs.Lines.{cards_of, header_allowed, no_frame};
ghost use Rattle.sheet_pages.specs.Allowed.{frames_allowed};
ghost use Rattle.sheet_pages.specs.Ring.{ring_page};
ghost use Rattle.sheet_page_writer.specs.Write.{ring_rows};
ghost use Rattle.sheet_writer.specs.Single.{wrote};

use base_limits::Limits;
use base_refusal::Refusal;
use sheet_lines::{Frame, Header, Layout};

// Whether refusal 9 lets all frames pass.
fn frames_pass<'a>(
    f: Layout,
    changes: &'a [u32; Limits::FRAMES],
    entries: &'a [u32; Limits::ENTRIES],
    h: Header,
) -> bool
    requires { Fits f × (header_allowed (format_of f) h.card 0 h ≡ true) }
    ensures { result ≡ frames_allowed (format_of f) h.card (cards_of (format_of f) h) (h.base + 1) no_frame (ring_rows changes.now entries.now h).frames }
{
    let n = sheet_header_reader::unraised(h.cards, f.raise);
    let mut last = Frame::NONE;
    for k in 0..h.count {
        let state = h.base + 1 + k;
        let next = sheet_page_writer::frame_of(changes, entries, h.card, state);
        if !sheet_frame_rules::frame_allowed(f, h.card, n, state, last, state, next) {
            return false;
        }
        last = next;
    }
    true
}

// Writes the sheet that a ring holds for a header, and answers its length; a refusal changes no byte.
pub fn write_sheet<'a, 'b>(
    b: &'a mut [u8],
    changes: &'b [u32; Limits::FRAMES],
    entries: &'b [u32; Limits::ENTRIES],
    h: Header,
) -> Result<usize, Refusal>
    ensures { (result ≡ (wrote (ring_page changes.now entries.now h) b.old).answer) × (b.new ≡ (wrote (ring_page changes.now entries.now h) b.old).buffer) }
{
    let f = sheet_lines::layout_of(h.cards);
    if !sheet_header_reader::header_allowed(f, h, h.card, 0) {
        return Err(Refusal::BadHeader);
    }
    if !frames_pass(f, changes, entries, h) {
        return Err(Refusal::BadFrame);
    }
    sheet_page_writer::write_page(b, changes, entries, h)
}
