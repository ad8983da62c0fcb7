// The text of the line program: card, stored and line of each card and the session after recovery, or the refusal.
#![tactic(auto)]

ghost use Rattle.std.specs.Prelude.{◌+◌, ◌≤◌, ◌≡◌, ◌++◌, length};
ghost use Rattle.base_text.specs.declared.Progress.TheVariants.{Next};
ghost use Rattle.base_text.specs.Put.{Put};
ghost use Rattle.cabinet_layout.specs.Shape.{at};
ghost use Rattle.cabinet_report.specs.Report.{text_at, text_of, row_text, rows_text, session_text, refused_text, line_text};

use base_limits::Limits;
use base_text::Progress;
use cabinet_layout::Core;

// A text of so many bytes, at the front of an array.
#[derive(Drop)]
pub struct Text {
    pub bytes: [u8; 560],
    pub length: usize,
}

// The text that is written as far as `w` says.
fn text_at(bytes: [u8; 560], w: Progress) -> Text
    ensures { result ≡ text_at bytes w }
{
    let length = match w {
        Progress::Next(n) => n,
        _ => 0,
    };
    Text { bytes, length }
}

// Writes a card's line: "card, stored, line".
fn put_card(b: &mut [u8], w: Progress, card: u32, stored: u32, line: u32) -> Progress
    ensures so { Put b.old w (row_text card stored line) result b.new }
    ensures room { length (row_text card stored line) ≤ 33 }
{
    base_lines::put_row(b, w, card, &[stored, line])
}

// Writes the lines of the first cards.
fn put_cards(
    b: &mut [u8],
    cards: u32,
    stored: [u32; Limits::CARDS],
    line: [u32; Limits::CARDS],
) -> Progress
    requires { cards ≤ 16 }
    ensures so { Put b.old (Next 0) (rows_text cards (at stored) (at line)) result b.new }
    ensures room { length (rows_text cards (at stored) (at line)) ≤ 528 }
{
    let mut w = Progress::Next(0);
    for c in 0..cards {
        let i = c as usize;
        w = put_card(b, w, c, stored[i], line[i]);
    }
    w
}

// "then the session after recovery"
fn accepted_text(
    cards: u32,
    session: u32,
    stored: [u32; Limits::CARDS],
    line: [u32; Limits::CARDS],
) -> Text
    requires { (cards ≤ 16) × (session ≡ 4294967295 → ⊥) }
    ensures { result ≡ text_of (rows_text cards (at stored) (at line) ++ session_text (session + 1)) }
{
    let mut b = [0u8; 560];
    let after = [session + 1];
    let w = put_cards(&mut b, cards, stored, line);
    let w = base_lines::put_line(&mut b, w, b"session", &after);
    text_at(b, w)
}

// "A refusal prints one line alone, as `refused 8`."
fn refused_text(n: u32) -> Text
    ensures { result ≡ text_of (refused_text n) }
{
    let mut b = [0u8; 560];
    let number = [n];
    let w = base_lines::put_line(&mut b, Progress::Next(0), b"refused", &number);
    text_at(b, w)
}

// What the line program prints for the bytes on its standard input.
pub fn line_text(bytes: &[u8]) -> Text
    ensures { result ≡ text_of (line_text bytes.now) }
{
    let a = cabinet_restart::restart(bytes);
    match a.reply {
        Ok(()) => {
            let Core {
                head,
                stored,
                line,
                ..
            } = a.cabinet.core;
            accepted_text(head.cards, head.session, stored, line)
        }
        Err(q) => refused_text(u32::from(q)),
    }
}
