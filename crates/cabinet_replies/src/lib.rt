// The reply of a call: the first check that fails, in document 01's order. Of store, its beginning and its end, and of lose.
#![tactic(auto)]

ghost use Rattle.std.specs.Prelude.{◌≡◌, not, cond, [], Ok, Err};
ghost use Rattle.base_bits.specs.Member.{member};
ghost use Rattle.theory_protocol.specs.Model.{is_card};
ghost use Rattle.theory_protocol.specs.Calls.{store_checks, end_checks, lose_checks};
ghost use Rattle.cabinet_layout.specs.Shape.{limits16, head_model, writes_model};
ghost use Rattle.cabinet_layout.specs.Answers.{first_failing, after28};

use base_limits::Limits;
use base_refusal::{Refusal, Reply};
use cabinet_layout::{Head, at, is_rolling};
use cabinet_writes::writes_to;

// One check: it refuses where it fails.
pub fn refuse_if(fails: bool, r: Refusal) -> Reply
    ensures { result ≡ cond fails (Err r) (Ok tt) }
{
    if fails { Err(r) } else { Ok(()) }
}

pub fn is_card(head: Head, c: u32) -> bool
    ensures { result ≡ is_card limits16 (head_model head) c }
{
    (c < Limits::CARDS_U32) & (c < head.cards)
}

// 5. store, and its beginning
pub fn store_verdict(
    valid: bool,
    head: Head,
    stored: [u32; Limits::CARDS],
    held: [u32; Limits::CARDS],
    writing: [u32; Limits::CARDS],
    card: u32,
    state: u32,
) -> Reply
    ensures { result ≡ first_failing (after28 (not valid) (store_checks limits16 (writes_model head stored held [] writing) card state)) }
{
    let there = is_card(head, card);
    refuse_if(!valid, Refusal::BadCabinet)?;
    refuse_if(!there, Refusal::NoSuchCard)?;
    refuse_if(is_rolling(head.phase), Refusal::WrongPhase)?;
    let low = at(stored, card);
    let high = at(held, card);
    let running = at(writing, card);
    refuse_if(!((low <= state) & (state <= high)), Refusal::StoreOutside)?;
    refuse_if(running != 0, Refusal::WriteRunning)
}

// The end of a store.
pub fn end_verdict(
    valid: bool,
    head: Head,
    stored: [u32; Limits::CARDS],
    writing: [u32; Limits::CARDS],
    card: u32,
    state: u32,
) -> Reply
    ensures { result ≡ first_failing (after28 (not valid) (end_checks limits16 (writes_model head stored [] [] writing) card state)) }
{
    refuse_if(!valid, Refusal::BadCabinet)?;
    refuse_if(!is_card(head, card), Refusal::NoSuchCard)?;
    let rolls = is_rolling(head.phase);
    refuse_if(rolls, Refusal::WrongPhase)?;
    let low = at(stored, card);
    let running = at(writing, card);
    let high = writes_to(running);
    refuse_if(
        !((running != 0) & (low <= state) & (state <= high)),
        Refusal::EndOutside,
    )
}

// 8. lose
pub fn lose_verdict(valid: bool, head: Head, cards: u16) -> Reply
    ensures { result ≡ first_failing (after28 (not valid) (lose_checks limits16 (head_model head) (member cards))) }
{
    refuse_if(!valid, Refusal::BadCabinet)?;
    let inside = base_set_bounds::within(cards, head.cards);
    refuse_if(!inside, Refusal::NoSuchCard)
}
