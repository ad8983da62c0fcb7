// What an opening looks at: the cards that open changes bar, and the cards with no room for a state more.
#![tactic(auto)]

ghost use Rattle.std.specs.Prelude.{◌+◌, ◌≡◌, leb};
ghost use Rattle.base_laws.specs.Below.{any_below};
ghost use Rattle.base_bits.specs.Member.{member};
ghost use Rattle.theory_protocol.specs.Calls.{bars, some_written};
ghost use Rattle.cabinet_layout.specs.Shape.{limits16, at, open_of, open_at};

use base_limits::Limits;
use cabinet_layout::Slot;

// The cards that an open change bars for an opening.
fn bar_set(o: Slot, reads: u16, writes: u16) -> u16
    ensures { member result ≡ bars (open_of o) (member reads) (member writes) }
{
    let touched = base_bits::union(o.reads, o.writes);
    let left = base_bits::difference(touched, o.taken);
    let read = base_bits::intersection(reads, o.writes);
    let asked = base_bits::union(writes, read);
    let barred = base_bits::intersection(left, asked);
    if o.number != 0 { barred } else { 0 }
}

// The cards that some open change bars for an opening.
pub fn barred_set(all: [Slot; Limits::SLOTS], reads: u16, writes: u16) -> u16
    ensures { member result ≡ (λ c. any_below limits16.slots (λ p. bars (open_at all p) (member reads) (member writes) c)) }
{
    let mut out: u16 = 0;
    for p in 0..Limits::SLOTS {
        let more = bar_set(all[p], reads, writes);
        out = base_bits::union(out, more);
    }
    out
}

fn full(base: u32, reached: u32) -> bool
    ensures { result ≡ leb (base + 48) reached }
{
    (base as u64) + Limits::IN_HAND_U64 <= (reached as u64)
}

// "a written card has reached base + 48"
pub fn hand_full(writes: u16, base: [u32; Limits::CARDS], reached: [u32; Limits::CARDS]) -> bool
    ensures { result ≡ some_written limits16 (member writes) (λ c. leb (at base c + limits16.in_hand) (at reached c)) }
{
    (0..Limits::CARDS).any(|c| base_bits::has(writes, c as u32) & full(base[c], reached[c]))
}

// "a written card at 60,000"
pub fn at_top(writes: u16, reached: [u32; Limits::CARDS]) -> bool
    ensures { result ≡ some_written limits16 (member writes) (λ c. leb limits16.greatest_state (at reached c)) }
{
    (0..Limits::CARDS).any(|c| base_bits::has(writes, c as u32)
        & (Limits::GREATEST_STATE <= reached[c]))
}
