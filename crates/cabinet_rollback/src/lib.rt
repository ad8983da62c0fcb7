// The verdicts on trim and roll, and what a roll writes.
#![tactic(auto)]

ghost use Rattle.std.specs.Prelude.{◌≡◌, not, []};
ghost use Rattle.base_bits.specs.Member.{member};
ghost use Rattle.theory_protocol.specs.Model.{with_card};
ghost use Rattle.theory_protocol.specs.Calls.{trim_checks, roll_checks, all_rolled};
ghost use Rattle.cabinet_layout.specs.Shape.{limits16, set_of, head_model, bare, with_line, model_of};
ghost use Rattle.cabinet_layout.specs.Answers.{first_failing, after28};

use base_refusal::{Refusal, Reply};
use cabinet_layout::{Head, is_rolling, is_up};
use cabinet_replies::{is_card, refuse_if};

// 6. trim
pub fn trim_verdict(valid: bool, head: Head) -> Reply
    ensures { result ≡ first_failing (after28 (not valid) (trim_checks limits16 (head_model head))) }
{
    refuse_if(!valid, Refusal::BadCabinet)?;
    refuse_if(!is_up(head.phase), Refusal::WrongPhase)
}

// 10. roll
pub fn roll_verdict(valid: bool, head: Head, rolled: u16, card: u32) -> Reply
    ensures { result ≡ first_failing (after28 (not valid) (roll_checks limits16 (model_of [] [] (with_line (bare head) [] rolled)) card)) }
{
    let there = is_card(head, card);
    refuse_if(!valid, Refusal::BadCabinet)?;
    refuse_if(!there, Refusal::NoSuchCard)?;
    refuse_if(!is_rolling(head.phase), Refusal::WrongPhase)?;
    let already = base_bits::has(rolled, card);
    refuse_if(already, Refusal::AlreadyRolled)
}

// The cards rolled, with one card more.
pub fn rolled_with(rolled: u16, card: u32) -> u16
    ensures { result ≡ set_of (with_card (member rolled) card) }
{
    base_bits::with(rolled, card)
}

// With that card all cards of the cabinet are rolled.
pub fn is_last(head: Head, rolled: u16, card: u32) -> bool
    ensures { result ≡ all_rolled limits16 (head_model head) (with_card (member rolled) card) }
{
    let all = base_bits::all_below(head.cards);
    let done = base_bits::with(rolled, card);
    let left = base_bits::difference(all, done);
    base_bits::is_empty(left)
}
