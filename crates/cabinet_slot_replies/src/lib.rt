// The replies of the calls on an open change: vote, take and withdraw.
#![tactic(auto)]

ghost use Rattle.std.specs.Prelude.{◌≡◌, not, []};
ghost use Rattle.theory_protocol.specs.Calls.{vote_checks, take_checks, withdraw_checks};
ghost use Rattle.cabinet_layout.specs.Shape.{limits16, slots_model};
ghost use Rattle.cabinet_layout.specs.Answers.{first_failing, after28};

use base_limits::Limits;
use base_refusal::{Refusal, Reply};
use cabinet_awaited::{is_awaited, is_decided};
use cabinet_layout::{Head, Slot, is_up};
use cabinet_replies::{is_card, refuse_if};
use cabinet_slots::{slot_at, slot_of};

// 2. vote
pub fn vote_verdict(valid: bool, head: Head, all: [Slot; Limits::SLOTS], k: u32, card: u32) -> Reply
    ensures { result ≡ first_failing (after28 (not valid) (vote_checks limits16 (slots_model head all [] []) k card)) }
{
    refuse_if(!valid, Refusal::BadCabinet)?;
    refuse_if(!is_card(head, card), Refusal::NoSuchCard)?;
    refuse_if(!is_up(head.phase), Refusal::WrongPhase)?;
    let p = slot_of(all, k);
    let o = slot_at(all, p);
    refuse_if(p >= Limits::SLOTS, Refusal::NotAwaited)?;
    let voted_on = is_decided(o);
    refuse_if(voted_on, Refusal::AlreadyDecided)?;
    let due = is_awaited(o, o.yes, card);
    refuse_if(!due, Refusal::NotAwaited)
}

// 4. withdraw
pub fn withdraw_verdict(valid: bool, head: Head, all: [Slot; Limits::SLOTS], k: u32) -> Reply
    ensures { result ≡ first_failing (after28 (not valid) (withdraw_checks limits16 (slots_model head all [] []) k)) }
{
    refuse_if(!valid, Refusal::BadCabinet)?;
    refuse_if(!is_up(head.phase), Refusal::WrongPhase)?;
    let p = slot_of(all, k);
    let o = slot_at(all, p);
    refuse_if(p >= Limits::SLOTS, Refusal::NotAwaited)?;
    refuse_if(is_decided(o), Refusal::AlreadyDecided)
}

// 3. take
pub fn take_verdict(valid: bool, head: Head, all: [Slot; Limits::SLOTS], k: u32, card: u32) -> Reply
    ensures { result ≡ first_failing (after28 (not valid) (take_checks limits16 (slots_model head all [] []) k card)) }
{
    refuse_if(!valid, Refusal::BadCabinet)?;
    refuse_if(!is_card(head, card), Refusal::NoSuchCard)?;
    refuse_if(!is_up(head.phase), Refusal::WrongPhase)?;
    let place = slot_of(all, k);
    let o = slot_at(all, place);
    refuse_if(place >= Limits::SLOTS, Refusal::NotAwaited)?;
    let made = is_decided(o);
    refuse_if(!made, Refusal::NotDecided)?;
    let due = is_awaited(o, o.taken, card);
    refuse_if(!due, Refusal::NotAwaited)
}
