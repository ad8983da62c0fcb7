// A card's sheet out of a cabinet, and its bytes in a lent buffer.
#![tactic(auto)]

ghost use Rattle.std.specs.Prelude.{◌≡◌, true, length};
ghost use Rattle.theory_protocol.specs.Codec.{sheet_plan};
ghost use Rattle.theory_codec.specs.Sheets.{codec};
ghost use Rattle.cabinet_layout.specs.Shape.{limits16, model_of};
ghost use Rattle.cabinet_sheet.specs.Card.{Within, sheet_model, sheet_plan_for, SheetResult};

use base_limits::Limits;
use base_refusal::Refusal;
use cabinet_layout::{Core, Head};
use cabinet_replies::is_card;
use cabinet_sheet_header::header_of;

// Writes a card's sheet at the front of the lent buffer: 28, 2, 4, or its length. A refusal changes no byte.
fn write_card<'a, 'b>(
    b: &'a mut [u8],
    entries: &'b [u32; Limits::ENTRIES],
    changes: &'b [u32; Limits::FRAMES],
    valid: bool,
    head: Head,
    rolled: u16,
    base: [u32; Limits::CARDS],
    stored: [u32; Limits::CARDS],
    card: u32,
) -> Result<usize, Refusal>
    requires { valid ≡ true → Within head base stored card }
    ensures { SheetResult (sheet_plan_for valid (sheet_model entries.now changes.now head rolled base stored) card (length b.old)) b.old b.new result }
{
    if !valid {
        return Err(Refusal::BadCabinet);
    }
    if !is_card(head, card) {
        return Err(Refusal::NoSuchCard);
    }
    let low = cabinet_layout::at(base, card);
    let high = cabinet_layout::at(stored, card);
    let h = header_of(head, rolled, low, high, card);
    sheet_page_writer::write_page(b, changes, entries, h)
}

// "A card's sheet may be written in every phase; buffer bytes beyond it keep what they held." Out of lent frames and the core of a cabinet; 28 is worked out here.
pub fn sheet<'a, 'b>(
    b: &'a mut [u8],
    entries: &'b [u32; Limits::ENTRIES],
    changes: &'b [u32; Limits::FRAMES],
    core: Core,
    card: u32,
) -> Result<usize, Refusal>
    ensures { SheetResult (sheet_plan codec limits16 (model_of entries.now changes.now core) card (length b.old)) b.old b.new result }
{
    let valid = cabinet_valid::cabinet_valid(entries, changes, core);
    // "Frames run from base + 1 to stored."
    write_card(
        b,
        entries,
        changes,
        valid,
        core.head,
        core.rolled,
        core.base,
        core.stored,
        card,
    )
}
