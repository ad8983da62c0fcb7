// The header line and the frame line of a card's sheet: what they hold, and what their readers answer.
#![tactic(auto)]

ghost use Rattle.std.specs.Prelude.{◌≡◌};
ghost use Rattle.sheet_lines.specs.Format.{format, format_of, Fits, plain, formats};

use base_limits::Limits;
use sheet_digits::Sums;

// What the readers and writers of lines are told of a sheet's format: the number that says none, the greatest state,
// what a header's number of cards is raised by, the digits of a state and of an entry, and whether entries are needs.
#[derive(Clone, Copy)]
pub struct Layout {
    pub none: u32,
    pub states: u32,
    pub raise: u32,
    pub width: usize,
    pub short: bool,
}

#[derive(Clone, Copy)]
pub struct Header {
    pub session: u32,
    pub card: u32,
    pub cards: u32,
    pub base: u32,
    pub count: u32,
}

// A frame without its state: its change number and its entries, each held as the least state that must be kept, 0 for none.
#[derive(Clone, Copy)]
pub struct Frame {
    pub change: u32,
    pub entries: [u32; Limits::CARDS],
}

impl Frame {
    // What stands before the first frame: change 0, no entries.
    pub const NONE: Frame = Frame {
        change: 0,
        entries: [0u32; Limits::CARDS],
    };
}

// Document 01's layout.
pub fn plain() -> Layout
    ensures { result ≡ plain }
{
    Layout {
        none: Limits::NO_ENTRY,
        states: Limits::GREATEST_STATE,
        raise: 0,
        width: 4,
        short: false,
    }
}

// The layout of a sheet whose header tells a number of cards.
pub fn layout_of(told: u32) -> Layout
    ensures format { format_of result ≡ formats told }
    ensures fits { Fits result }
{
    plain()
}

// Where the two sums of a sheet's checks start.
pub fn start_of(card: u32, session: u32) -> Sums
    ensures { result ≡ format.start card session }
{
    Sums {
        first: ((card % 256 + 1) % 256) as u8,
        second: (session % 256) as u8,
    }
}
