// 7. safe: whether a change would be in the line if every card were lost now.
#![tactic(auto)]

ghost use Rattle.std.specs.Prelude.{◌<◌, ◌≡◌, not, ◌&&◌, cond, [], eqb, Ok};
ghost use Rattle.base_laws.specs.Below.{any_below};
ghost use Rattle.theory_protocol.specs.Edit.{remembered};
ghost use Rattle.theory_protocol.specs.Calls.{safe_checks, is_safe};
ghost use Rattle.theory_protocol.specs.Plan.{checked, accepted, safe, unsafe};
ghost use Rattle.cabinet_layout.specs.Shape.{limits16, open_at, bare, with_numbers, model_of};
ghost use Rattle.cabinet_layout.specs.Answers.{safe_reply_of, first_failing, after28};
ghost use Rattle.cabinet_listing.specs.Lost.{framed_by, some_framed};

use base_limits::Limits;
use base_refusal::{Refusal, Reply};
use cabinet_layout::{Core, Head, Safety, Slot, is_up};
use cabinet_replies::refuse_if;

// Card c has a frame of change k above state x.
fn frame_above(changes: &[u32; Limits::FRAMES], c: usize, x: u32, reached: u32, k: u32) -> bool
    requires { c < 16 }
    ensures { result ≡ framed_by changes.now c x reached k }
{
    let n = reached.saturating_sub(x);
    (0..n).any(|s| {
        let place = base_limits::ring_place(c as u32, (x + s + 1) as usize);
        changes[place] == k
    })
}

// The same of a card that is there.
fn there_above(
    changes: &[u32; Limits::FRAMES],
    there: bool,
    c: usize,
    x: u32,
    reached: u32,
    k: u32,
) -> bool
    requires { c < 16 }
    ensures { result ≡ (there && framed_by changes.now c x reached k) }
{
    if there {
        frame_above(changes, c, x, reached, k)
    } else {
        false
    }
}

// Some card of the cabinet has a frame of change k above its number.
fn some_above(
    changes: &[u32; Limits::FRAMES],
    numbers: [u32; Limits::CARDS],
    reached: [u32; Limits::CARDS],
    cards: u32,
    k: u32,
) -> bool
    ensures { result ≡ some_framed changes.now numbers reached cards k }
{
    (0..Limits::CARDS).any(|c| {
        let there = c < (cards as usize);
        there_above(changes, there, c, numbers[c], reached[c], k)
    })
}

// A loss now would end change k with a written share untaken.
fn would_end(slots: [Slot; Limits::SLOTS], k: u32) -> bool
    ensures { result ≡ any_below limits16.slots (λ p. eqb (remembered limits16 (open_at slots p)) k) }
{
    slots
        .iter()
        .any(|o| cabinet_awaited::remembered_number(*o) == k)
}

// Change k would be in the line if every card were lost now.
fn would_stay<'a>(
    entries: &'a [u32; Limits::ENTRIES],
    changes: &'a [u32; Limits::FRAMES],
    core: Core,
    k: u32,
) -> bool
    ensures { result ≡ is_safe limits16 (model_of entries.now changes.now core) k }
{
    let base = core.base;
    let stored = core.stored;
    let reached = core.reached;
    let slots = core.slots;
    let head = core.head;
    let line = cabinet_recovery::lines(entries, head, base, stored, reached);
    let framed = some_above(changes, line, reached, head.cards, k);
    let ends = would_end(slots, k);
    !((k != 0) & (framed | ends))
}

fn graded(good: bool) -> Safety
    ensures { safe_reply_of (Ok result) ≡ accepted (cond good safe unsafe) }
{
    if good { Safety::Safe } else { Safety::Unsafe }
}

// The checks of safe.
fn safe_reply(
    valid: bool,
    changes: &[u32; Limits::FRAMES],
    head: Head,
    base: [u32; Limits::CARDS],
    reached: [u32; Limits::CARDS],
    k: u32,
) -> Reply
    ensures { result ≡ first_failing (after28 (not valid) (safe_checks limits16 (model_of [] changes.now (with_numbers (bare head) base [] [] reached)) k)) }
{
    refuse_if(!valid, Refusal::BadCabinet)?;
    refuse_if(!is_up(head.phase), Refusal::WrongPhase)?;
    let known = some_above(changes, base, reached, head.cards, k);
    refuse_if(!((k != 0) & known), Refusal::NotAwaited)
}

// 7. safe
pub fn safe_verdict<'a>(
    valid: bool,
    entries: &'a [u32; Limits::ENTRIES],
    changes: &'a [u32; Limits::FRAMES],
    core: Core,
    k: u32,
) -> Result<Safety, Refusal>
    ensures { safe_reply_of result ≡ (checked (after28 (not valid) (safe_checks limits16 (model_of entries.now changes.now core) k)) (cond (is_safe limits16 (model_of entries.now changes.now core) k) safe unsafe) []).reply }
{
    safe_reply(valid, changes, core.head, core.base, core.reached, k)?;
    Ok(graded(would_stay(entries, changes, core, k)))
}
