// Rows of the ring: the entries of one frame, read and written at its place.
#![tactic(auto)]

ghost use Rattle.std.specs.Prelude.{◌≡◌};
ghost use Rattle.base_rows.specs.Row.{row_at, row_put};

use base_limits::Limits;

// The 16 entries at a place of the ring; zeros where it has no such place.
pub fn row_at(entries: &[u32; Limits::ENTRIES], place: usize) -> [u32; Limits::CARDS]
    ensures { result ≡ row_at entries.now place }
{
    let mut row = [0u32; Limits::CARDS];
    if place < Limits::FRAMES {
        for j in 0..Limits::CARDS {
            row[j] = entries[place * Limits::CARDS + j];
        }
    }
    row
}

// The 16 entries of a place of the ring written; nothing where it has no such place.
pub fn put_row(entries: &mut [u32; Limits::ENTRIES], place: usize, row: [u32; Limits::CARDS])
    ensures { entries.new ≡ row_put entries.old place row }
{
    if place < Limits::FRAMES {
        for j in 0..Limits::CARDS {
            entries[place * Limits::CARDS + j] = row[j];
        }
    }
}
