// The reader of one sheet, told its card.
#![tactic(auto)]

ghost use Rattle.std.specs.Prelude.{◌≡◌};
ghost use Rattle.sheet_reader.specs.Single.{sheet_read_of};

use base_limits::Limits;
use base_refusal::Refusal;
use sheet_pages::Reading;

// Reads the sheet of the card told: the one sheet of a read-out.
pub fn read_sheet(s: &[u8], card: u32) -> Reading
    ensures { result ≡ sheet_read_of card s.now }
{
    if Limits::LONGEST < s.len() {
        return sheet_pages::nothing_read(Refusal::TooLong);
    }
    sheet_walk::read_sheets(s, card, false)
}
