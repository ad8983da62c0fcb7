// Told of a set of cards: how many they are, the lowest, and whether all are below a number.
#![tactic(auto)]

ghost use Rattle.std.specs.Prelude.{◌≡◌};
ghost use Rattle.base_laws.specs.Below.{count_below, first_below};
ghost use Rattle.base_bits.specs.Sets.{inside};
ghost use Rattle.base_bits.specs.Member.{member};

use base_limits::Limits;

// How many cards are in the set.
pub fn count(set: u16) -> u32
    ensures { result ≡ count_below 16 (member set) }
{
    u16::count_ones(set)
}

// The lowest card of the set, and 16 where it is empty.
pub fn lowest(set: u16) -> u32
    ensures { result ≡ first_below 16 (member set) }
{
    u16::trailing_zeros(set)
}

// Whether every card of the set is below n.
pub fn within(set: u16, n: u32) -> bool
    ensures { result ≡ inside 16 n (member set) }
{
    if n < Limits::CARDS_U32 {
        set >> n == 0
    } else {
        true
    }
}
