// The limits of document 01 as constants: the one place where the code has these numbers.
#![tactic(auto)]

ghost use Rattle.std.specs.Prelude.{◌≡◌};
ghost use Rattle.base_limits.specs.Constants.{constants};
ghost use Rattle.base_limits.specs.Ring.{ring_place};

// Document 01's "associated constants for the limits", and what follows from them; a value of it has them all.
#[derive(Drop)]
pub struct Limits {
    pub cards: usize,
    pub in_hand: usize,
    pub slots: usize,
    pub greatest_state: u32,
    pub greatest_number: u32,
    pub longest: usize,
    pub no_entry: u32,
    pub frames: usize,
    pub entries: usize,
    pub most_lost: usize,
    pub sets: u32,
    pub all_cards: u16,
    pub cards_u32: u32,
    pub in_hand_u32: u32,
    pub in_hand_u64: u64,
    pub most_lost_u32: u32,
    pub longest_u32: u32,
}

impl Limits {
    // "A cabinet has 1 to 16 cards"
    pub const CARDS: usize = 16;

    // "reached at most base + 48"
    pub const IN_HAND: usize = 48;

    // "more than eight open changes"
    pub const SLOTS: usize = 8;

    // "and at most 60,000"
    pub const GREATEST_STATE: u32 = 60000;

    // "change number or session at 4,294,967,295"
    pub const GREATEST_NUMBER: u32 = 4294967295;

    // "input over 65,536 bytes"
    pub const LONGEST: usize = 65536;

    // "none is FFFF", in a sheet
    pub const NO_ENTRY: u32 = 65535;

    // the frames in hand of all cards
    pub const FRAMES: usize = Limits::CARDS * Limits::IN_HAND;

    // the entries of these frames
    pub const ENTRIES: usize = Limits::FRAMES * Limits::CARDS;

    // "the numbers of lost changes into a second list of up to 776"
    pub const MOST_LOST: usize = Limits::FRAMES + Limits::SLOTS;

    // "a set of 16 bits": how many there are, and the one of all cards
    pub const SETS: u32 = 1 << Limits::CARDS_U32;

    pub const ALL_CARDS: u16 = (Limits::SETS - 1) as u16;

    // the same where they meet numbers of 32 and 64 bits
    pub const CARDS_U32: u32 = Limits::CARDS as u32;

    pub const IN_HAND_U32: u32 = Limits::IN_HAND as u32;

    pub const IN_HAND_U64: u64 = Limits::IN_HAND as u64;

    pub const MOST_LOST_U32: u32 = Limits::MOST_LOST as u32;

    pub const LONGEST_U32: u32 = Limits::LONGEST as u32;

    // All of them are the definitions' limits.
    pub fn all() -> Limits
        ensures { result ≡ constants }
    {
        Limits {
            cards: Limits::CARDS,
            in_hand: Limits::IN_HAND,
            slots: Limits::SLOTS,
            greatest_state: Limits::GREATEST_STATE,
            greatest_number: Limits::GREATEST_NUMBER,
            longest: Limits::LONGEST,
            no_entry: Limits::NO_ENTRY,
            frames: Limits::FRAMES,
            entries: Limits::ENTRIES,
            most_lost: Limits::MOST_LOST,
            sets: Limits::SETS,
            all_cards: Limits::ALL_CARDS,
            cards_u32: Limits::CARDS_U32,
            in_hand_u32: Limits::IN_HAND_U32,
            in_hand_u64: Limits::IN_HAND_U64,
            most_lost_u32: Limits::MOST_LOST_U32,
            longest_u32: Limits::LONGEST_U32,
        }
    }
}

// The place of a state of a card in the ring of frames; the number behind any of 32 bits has one too.
pub fn ring_place(card: u32, state: usize) -> usize
    ensures { result ≡ ring_place card state }
{
    card as usize * Limits::IN_HAND + state % Limits::IN_HAND
}
