// A card's sheet, written in every phase.
ghost use Rattle.cabinet.specs.Writing.{SheetCarried};

use crate::{Answer, Cabinet};

impl Cabinet {
    // "A card's sheet may be written in every phase; buffer bytes beyond it keep what they held."
    pub fn sheet<'a>(self, card: u32, buffer: &'a mut [u8]) -> Answer<usize>
        ensures { SheetCarried self card buffer.old buffer.new result.reply result.cabinet }
    {
        let reply = cabinet_sheet::sheet(buffer, &self.entries, &self.changes, self.core, card);
        Answer {
            cabinet: self,
            reply,
        }
    }
}
