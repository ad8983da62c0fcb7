// The reader of a sheet's frame line.
#![tactic(auto)]

ghost use Rattle.std.specs.Prelude.{◌≡◌, ◌+◌, ◌*◌, ◌-◌, ◌^◌, ◌≤◌, length, drop};
ghost use Rattle.sheet_lines.specs.Format.{format_of, Fits, held_by};
ghost use Rattle.sheet_lines.specs.Lines.{entries_by, frame_in, frame_verdict, frame_read_of, padded};

use base_limits::Limits;
use base_refusal::Refusal;
use sheet_digits::Sums;
use sheet_lines::{Frame, Layout};

// What is held for an entry.
fn held(short: bool, none: u32, e: u32) -> u32
    requires { e ≤ none }
    ensures { result ≡ held_by short none e }
{
    if e == none {
        return 0;
    }
    if !short {
        return e + 1;
    }
    if e == 0 { none } else { e }
}

// What is held of n entries from `at` on, and 0 beyond them.
fn entries_at(
    s: &[u8],
    at: usize,
    n: usize,
    width: usize,
    short: bool,
    none: u32,
) -> [u32; Limits::CARDS]
    requires { (n ≤ 16) × (width ≤ 8) × (none ≡ 16 ^ width - 1) × (at + n * width ≤ length s.now) }
    ensures { result ≡ padded (entries_by width (held_by short none) n (drop at s.now)) }
{
    let mut entries = [0u32; Limits::CARDS];
    for j in 0..n {
        entries[j] = held(
            short,
            none,
            sheet_digits::state_at(s, at + j * width, width),
        );
    }
    entries
}

// Reads the frame line of n entries at `at`, where `state` is the next; `last` is the frame before, or zeros.
pub fn frame_at(
    f: Layout,
    s: &[u8],
    at: usize,
    start: Sums,
    card: u32,
    n: u32,
    state: u32,
    last: Frame,
) -> Result<Frame, Refusal>
    requires { Fits f × (n ≤ 16) }
    ensures { result ≡ frame_read_of (frame_verdict (format_of f) start card n state last (drop at s.now)) (frame_in (format_of f) n (drop at s.now)) }
{
    let width = f.width;
    let digits = width + 8 + n as usize * width;
    sheet_line_check::shape_at(s, at, digits)?;
    if !sheet_line_check::check_at(s, at, digits, start) {
        return Err(Refusal::BadCheck);
    }
    let told = sheet_digits::number_at(s, at, width);
    let change = sheet_digits::number_at(s, at + width, 8);
    let entries = entries_at(s, at + (width + 8), n as usize, width, f.short, f.none);
    let next = Frame { change, entries };
    if !sheet_frame_rules::frame_allowed(f, card, n, state, last, told, next) {
        return Err(Refusal::BadFrame);
    }
    Ok(next)
}
