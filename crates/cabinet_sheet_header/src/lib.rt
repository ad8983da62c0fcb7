// The header of a card's sheet, out of a cabinet.
#![tactic(auto)]

ghost use Rattle.std.specs.Prelude.{◌≤◌, ◌≡◌, true};
ghost use Rattle.theory_protocol.specs.Model.{is_rolling};
ghost use Rattle.cabinet_layout.specs.Shape.{phase_of};
ghost use Rattle.cabinet_sheet_header.specs.Told.{session_for, card_header};

use cabinet_layout::{Head, is_rolling};
use sheet_lines::Header;

// "A card already rolled writes the next session's number."
fn session_for(head: Head, rolled: u16, card: u32) -> u32
    requires { is_rolling (phase_of head.phase) ≡ true → head.session ≡ 4294967295 → ⊥ }
    ensures { result ≡ session_for head rolled card }
{
    if is_rolling(head.phase) && base_bits::has(rolled, card) {
        head.session + 1
    } else {
        head.session
    }
}

// The header of a card's sheet, by the card's base and stored number.
pub fn header_of(head: Head, rolled: u16, base: u32, stored: u32, card: u32) -> Header
    requires { (base ≤ stored) × (is_rolling (phase_of head.phase) ≡ true → head.session ≡ 4294967295 → ⊥) }
    ensures { result ≡ card_header head rolled base stored card }
{
    Header {
        session: session_for(head, rolled, card),
        card,
        cards: head.cards,
        base,
        count: stored - base,
    }
}
