// The reader of a sheet's header line.
#![tactic(auto)]

ghost use Rattle.std.specs.Prelude.{◌≡◌, ◌+◌, ◌-◌, ◌≤◌, length, take, drop, eqb, ◌||◌};
ghost use Rattle.sheet_digits.specs.Digits.{number};
ghost use Rattle.sheet_lines.specs.Format.{format_of};
ghost use Rattle.sheet_lines.specs.Lines.{header_in, header_allowed, header_verdict, header_or};

use base_limits::Limits;
use base_refusal::Refusal;
use sheet_lines::{Header, Layout};

// The number of cards that the header line at `at` tells, from as many of its digits as there are.
pub fn told_at(s: &[u8], at: usize) -> u32
    ensures { result ≡ number (take 2 (drop 10 (drop at s.now))) }
{
    let digits = s.len().saturating_sub(at).saturating_sub(10).min(2);
    if digits == 0 {
        return 0;
    }
    sheet_digits::number_at(s, at + 10, digits)
}

fn header_in(f: Layout, s: &[u8], at: usize) -> Header
    requires { (f.width ≤ 8) × (at + (f.width + 16) ≤ length s.now) }
    ensures { result ≡ header_in (format_of f) (drop at s.now) }
{
    let width = f.width;
    Header {
        session: sheet_digits::number_at(s, at, 8),
        card: sheet_digits::number_at(s, at + 8, 2),
        cards: sheet_digits::number_at(s, at + 10, 2),
        base: sheet_digits::number_at(s, at + 12, width),
        count: sheet_digits::number_at(s, at + (width + 12), 4),
    }
}

// The number of cards without the raise.
pub fn unraised(cards: u32, raise: u32) -> u32
    ensures { result ≡ cards - raise }
{
    cards.saturating_sub(raise)
}

// Whether a number of cards is the first sheet's, or this is the first sheet.
fn agrees(cards: u32, first: u32) -> bool
    ensures { result ≡ (eqb first 0 || eqb cards first) }
{
    first == 0 || cards == first
}

pub fn header_allowed(f: Layout, h: Header, due: u32, first: u32) -> bool
    ensures { result ≡ header_allowed (format_of f) due first h }
{
    let cards = unraised(h.cards, f.raise);
    h.session != 0
        && h.card == due
        && h.card < cards
        && cards <= Limits::CARDS_U32
        && agrees(cards, first)
        && h.count <= Limits::IN_HAND_U32
        && h.base <= f.states
        && h.count <= f.states - h.base
}

// Reads the header line at `at`, where card `due` is due; `first` is the first sheet's number of cards, or 0. Card and
// session are taken from the line before its check is judged.
pub fn header_at(f: Layout, s: &[u8], at: usize, due: u32, first: u32) -> Result<Header, Refusal>
    requires { f.width ≤ 8 }
    ensures { result ≡ header_or (header_verdict (format_of f) due first (drop at s.now)) (header_in (format_of f) (drop at s.now)) }
{
    let digits = f.width + 16;
    sheet_line_check::shape_at(s, at, digits)?;
    let h = header_in(f, s, at);
    let start = sheet_lines::start_of(h.card, h.session);
    if !sheet_line_check::check_at(s, at, digits, start) {
        return Err(Refusal::BadCheck);
    }
    if !header_allowed(f, h, due, first) {
        return Err(Refusal::BadHeader);
    }
    Ok(h)
}
