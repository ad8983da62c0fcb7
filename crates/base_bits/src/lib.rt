// Sets of cards as numbers: card i is in the set where the digit of the number at i is 1, card 0 the lowest.
// Every function is total: a card or a number of cards outside the set's 16 digits is answered too.
#![tactic(auto)]

ghost use Rattle.std.specs.Prelude.{◌≡◌, not};
ghost use Rattle.base_laws.specs.Below.{any_below};
ghost use Rattle.base_bits.specs.Sets.{either, both, except, one, below, truncate};
ghost use Rattle.base_bits.specs.Member.{member};

use base_limits::Limits;

// The digits of a set, and the set that has them all.
const WIDTH: u32 = Limits::CARDS_U32;

const ALL: u16 = Limits::ALL_CARDS;

// Whether the card is in the set.
pub fn has(set: u16, card: u32) -> bool
    ensures { result ≡ member set card }
{
    if card < WIDTH {
        (set >> card) % 2 == 1
    } else {
        false
    }
}

// The cards of a or of b.
pub fn union(a: u16, b: u16) -> u16
    ensures { member result ≡ either (member a) (member b) }
{
    a | b
}

// The cards of a that are also in b.
pub fn intersection(a: u16, b: u16) -> u16
    ensures { member result ≡ both (member a) (member b) }
{
    a & b
}

// The cards of a that are not in b.
pub fn difference(a: u16, b: u16) -> u16
    ensures { member result ≡ except (member a) (member b) }
{
    a & !b
}

// The set of one card; of a card above 15, the empty set.
pub fn single(card: u32) -> u16
    ensures { member result ≡ truncate 16 (one card) }
{
    if card < WIDTH { 1 << card } else { 0 }
}

// The set with the card put in.
pub fn with(set: u16, card: u32) -> u16
    ensures { member result ≡ truncate 16 (either (member set) (one card)) }
{
    union(set, single(card))
}

// The set with the card taken out.
pub fn without(set: u16, card: u32) -> u16
    ensures { member result ≡ except (member set) (one card) }
{
    difference(set, single(card))
}

// Every card below n.
pub fn all_below(n: u32) -> u16
    ensures { member result ≡ truncate 16 (below n) }
{
    if n < WIDTH { (1 << n) - 1 } else { ALL }
}

// Whether no card is in the set.
pub fn is_empty(set: u16) -> bool
    ensures { result ≡ not (any_below 16 (member set)) }
{
    set == 0
}
