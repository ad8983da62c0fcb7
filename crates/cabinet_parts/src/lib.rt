// The vectors that a take writes, what an opening answers, and how a cabinet begins.
#![tactic(auto)]

ghost use Rattle.std.specs.Prelude.{◌<◌, ◌≡◌, not, Ok};
ghost use Rattle.theory_history.specs.Vector.{joined};
ghost use Rattle.theory_protocol.specs.Calls.{fresh_refused};
ghost use Rattle.cabinet_layout.specs.Shape.{limits16, at, list_of, vector_for};
ghost use Rattle.cabinet_parts.specs.Opening.{open_answer};
ghost use Rattle.cabinet_parts.specs.Fresh.{fresh_head};

use base_limits::Limits;
use base_refusal::{Refusal, Reply};
use cabinet_layout::{Head, Phase, Slot, Vector};

// The vector of a decided change, as a card keeps it.
pub fn vector_of(o: Slot) -> Vector
    ensures { (result.entries ≡ o.vector) × (o.vector ≡ list_of (at o.vector)) }
{
    Vector {
        entries: cabinet_vectors::copied(o.vector),
    }
}

// "A card only read raises its pending entry by entry."
pub fn raised(pending: Vector, v: Vector) -> Vector
    ensures { result ≡ vector_for (joined (at pending.entries) (at v.entries)) }
{
    Vector {
        entries: cabinet_vectors::join(pending.entries, v.entries),
    }
}

// What an opening with that verdict answers, after so many changes.
pub fn open_answer(r: Reply, count: u32) -> Result<u32, Refusal>
    requires { r ≡ Ok tt → count < 4294967295 }
    ensures { result ≡ open_answer r count }
{
    r?;
    Ok(count + 1)
}

// "number of cards not 1 to 16" does not hold.
pub fn cards_fit(cards: u32) -> bool
    ensures { result ≡ not (fresh_refused limits16 cards) }
{
    (1 <= cards) & (cards <= Limits::CARDS_U32)
}

// "A fresh cabinet has session 1, phase up".
pub fn fresh_head(cards: u32) -> Head
    ensures { result ≡ fresh_head cards }
{
    cabinet_layout::head_of(1, cards, Phase::Up)
}
