// The writer of a sheet's header line and of its frame line.
#![tactic(auto)]

ghost use Rattle.std.specs.Prelude.{◌≡◌, ◌+◌, ◌*◌, ◌≤◌, map, length, replicate};
ghost use Rattle.std.proofs.lemmas.List.Edits.{sets};
ghost use Rattle.sheet_digits.specs.Digits.{written};
ghost use Rattle.sheet_lines.specs.Format.{format_of, Fits, shown_by};
ghost use Rattle.sheet_lines.specs.Lines.{header_line, frame_line};

use base_limits::Limits;
use sheet_digits::Sums;
use sheet_lines::{Frame, Header, Layout};

// The entry that a sheet has for what is held.
fn entry_of(short: bool, none: u32, d: u32) -> u32
    ensures { result ≡ shown_by short none d }
{
    if d == 0 {
        return none;
    }
    if !short {
        return d - 1;
    }
    if d == none { 0 } else { d }
}

// Writes a header line at `at`.
pub fn put_header(f: Layout, b: &mut [u8], at: usize, h: Header)
    requires { at + (f.width + 16) + 5 ≤ length b.old }
    ensures { b.new ≡ sets b.old at (header_line (format_of f) h) }
{
    let width = f.width;
    sheet_digits::put_number(b, at, 8, h.session);
    sheet_digits::put_number(b, at + 8, 2, h.card);
    sheet_digits::put_number(b, at + 10, 2, h.cards);
    sheet_digits::put_number(b, at + 12, width, h.base);
    sheet_digits::put_number(b, at + (width + 12), 4, h.count);
    let start = sheet_lines::start_of(h.card, h.session);
    sheet_line_check::end_line(b, at, width + 16, start);
}

// Writes the first n of a frame's entries from `at` on.
fn put_entries(
    b: &mut [u8],
    at: usize,
    n: usize,
    width: usize,
    short: bool,
    none: u32,
    entries: [u32; Limits::CARDS],
)
    requires { (n ≤ 16) × (at + n * width ≤ length b.old) }
    ensures { b.new ≡ sets b.old at (written (replicate n width) (map (shown_by short none) entries)) }
{
    for j in 0..n {
        sheet_digits::put_state(b, at + j * width, width, entry_of(short, none, entries[j]));
    }
}

// Writes a frame line of n entries at `at`.
pub fn put_frame(f: Layout, b: &mut [u8], at: usize, start: Sums, n: usize, state: u32, next: Frame)
    requires { Fits f × (n ≤ 16) × (at + (f.width + 8 + n * f.width) + 5 ≤ length b.old) }
    ensures { b.new ≡ sets b.old at (frame_line (format_of f) start n state next) }
{
    let width = f.width;
    sheet_digits::put_number(b, at, width, state);
    sheet_digits::put_number(b, at + width, 8, next.change);
    put_entries(b, at + (width + 8), n, width, f.short, f.none, next.entries);
    sheet_line_check::end_line(b, at, width + 8 + n * width, start);
}
