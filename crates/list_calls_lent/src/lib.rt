// Fix and sheet writing with lists that a line lends, each with its answer written.
#![tactic(auto)]

ghost use Rattle.std.specs.Prelude.{min, ◌≡◌, length};
ghost use Rattle.theory_protocol.specs.Calls.{fix_plan};
ghost use Rattle.theory_protocol.specs.Codec.{sheet_plan};
ghost use Rattle.theory_codec.specs.Sheets.{codec};
ghost use Rattle.cabinet_layout.specs.Shape.{limits16};
ghost use Rattle.cabinet.specs.View.{view};
ghost use Rattle.list_results.specs.Result.{Planned, Written, Continuing};

use base_limits::Limits;
use base_text::Progress;
use cabinet::Cabinet;
use cabinet_layout::Core;
use cabinet_records::CardRecord;
use list_results::Stepped;

// A list for change numbers.
fn blank_list() -> [u32; Limits::MOST_LOST]
    ensures { length result ≡ 776 }
{
    [0; Limits::MOST_LOST]
}

// A list for card records.
fn blank_records() -> [CardRecord; Limits::CARDS]
    ensures { length result ≡ 16 }
{
    let zero = CardRecord {
        card: 0,
        stored: 0,
        line: 0,
    };
    [zero; Limits::CARDS]
}

// 9. fix: the list for card records has at most 16 places, that for change numbers at most 776.
pub fn fix(c: Cabinet, records: u32, numbers: u32, b: &mut [u8], w: Progress) -> Stepped
    ensures { Written (Continuing (Planned c (fix_plan limits16 (view c) (min records 16) (min numbers 776))) result.replay) b.old w result.written b.new }
{
    let cards = c.core.head.cards;
    let mut list = blank_list();
    let places = (numbers as usize).min(Limits::MOST_LOST);
    let a = c
        .fix_array(blank_records(), records as usize, &mut list[0..places])
        .answer;
    let Core { stored, line, .. } = a.cabinet.core;
    let written = list_whole_lent::put_fix(b, w, cards, stored, line, list, places, a.reply);
    Stepped::with(a.cabinet, written)
}

// A buffer for a sheet.
fn blank_buffer() -> [u8; Limits::LONGEST]
    ensures { length result ≡ 65536 }
{
    [0; Limits::LONGEST]
}

// A card's sheet: the buffer has at most 65,536 bytes.
pub fn sheet(c: Cabinet, card: u32, bytes: u32, b: &mut [u8], w: Progress) -> Stepped
    ensures { Written (Continuing (Planned c (sheet_plan codec limits16 (view c) card (min bytes 65536))) result.replay) b.old w result.written b.new }
{
    let mut buffer = blank_buffer();
    let places = (bytes as usize).min(Limits::LONGEST);
    let a = c.sheet(card, &mut buffer[0..places]);
    let written = list_whole_lent::put_sheet(b, w, &buffer, places, a.reply);
    Stepped::with(a.cabinet, written)
}
