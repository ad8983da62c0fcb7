// "A list of card records that the caller lends": one record per card, in card order; places beyond keep what they held.
#![tactic(auto)]

ghost use Rattle.std.specs.Prelude.{◌≡◌, ◌<◌};
ghost use Rattle.cabinet_records.specs.Records.{record_at, places_used, filled};

use base_limits::Limits;

// One card's numbers as call 9 answers them.
#[derive(Clone, Copy)]
pub struct CardRecord {
    pub card: u32,
    pub stored: u32,
    pub line: u32,
}

// So many cards, and two numbers of each: of fix, the stored number and the line.
#[derive(Clone, Copy)]
pub struct CardNumbers {
    pub cards: usize,
    pub first: [u32; Limits::CARDS],
    pub second: [u32; Limits::CARDS],
}

// One card's record.
fn record_of(numbers: CardNumbers, card: usize) -> CardRecord
    requires { card < 16 }
    ensures { result ≡ record_at numbers card }
{
    CardRecord {
        card: card as u32,
        stored: numbers.first[card],
        line: numbers.second[card],
    }
}

// How many places of a list of so many are written: all records or none.
fn places_used(numbers: CardNumbers, places: usize) -> usize
    ensures { result ≡ places_used numbers places }
{
    let n = numbers.cards;
    if (n <= Limits::CARDS) & (n <= places) {
        n
    } else {
        0
    }
}

// The records go into the lent list.
pub fn fill<'a>(list: &'a mut [CardRecord], numbers: CardNumbers)
    ensures { list.new ≡ filled numbers list.old }
{
    let n = places_used(numbers, list.len());
    for i in 0..n {
        list[i] = record_of(numbers, i);
    }
}
