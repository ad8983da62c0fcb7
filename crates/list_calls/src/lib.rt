// Calls on the present cabinet that name no set and lend nothing, each with its answer written.
#![tactic(auto)]

ghost use Rattle.theory_protocol.specs.Calls.{store_plan, begin_plan, end_plan, take_plan, vote_plan, withdraw_plan, safe_plan, trim_plan, roll_plan};
ghost use Rattle.cabinet_layout.specs.Shape.{limits16};
ghost use Rattle.cabinet.specs.View.{view};
ghost use Rattle.list_results.specs.Result.{Planned, Written, Continuing};

use base_text::Progress;
use cabinet::Cabinet;
use list_results::Stepped;

// 2. vote
pub fn vote(c: Cabinet, change: u32, card: u32, agrees: bool, b: &mut [u8], w: Progress) -> Stepped
    ensures { Written (Continuing (Planned c (vote_plan limits16 (view c) change card agrees)) result.replay) b.old w result.written b.new }
{
    Stepped::replied(c.vote(change, card, agrees), b, w)
}

// 3. take
pub fn take(c: Cabinet, change: u32, card: u32, b: &mut [u8], w: Progress) -> Stepped
    ensures { Written (Continuing (Planned c (take_plan limits16 (view c) change card)) result.replay) b.old w result.written b.new }
{
    Stepped::replied(c.take(change, card), b, w)
}

// 4. withdraw
pub fn withdraw(c: Cabinet, change: u32, b: &mut [u8], w: Progress) -> Stepped
    ensures { Written (Continuing (Planned c (withdraw_plan limits16 (view c) change)) result.replay) b.old w result.written b.new }
{
    Stepped::replied(c.withdraw(change), b, w)
}

// 5. store
pub fn store(c: Cabinet, card: u32, state: u32, b: &mut [u8], w: Progress) -> Stepped
    ensures { Written (Continuing (Planned c (store_plan limits16 (view c) card state)) result.replay) b.old w result.written b.new }
{
    Stepped::replied(c.store(card, state), b, w)
}

// The beginning of a store (document 02, wish 5).
pub fn begin(c: Cabinet, card: u32, state: u32, b: &mut [u8], w: Progress) -> Stepped
    ensures { Written (Continuing (Planned c (begin_plan limits16 (view c) card state)) result.replay) b.old w result.written b.new }
{
    Stepped::replied(c.begin(card, state), b, w)
}

// The end of a store.
pub fn end(c: Cabinet, card: u32, state: u32, b: &mut [u8], w: Progress) -> Stepped
    ensures { Written (Continuing (Planned c (end_plan limits16 (view c) card state)) result.replay) b.old w result.written b.new }
{
    Stepped::replied(c.end(card, state), b, w)
}

// 6. trim
pub fn trim(c: Cabinet, b: &mut [u8], w: Progress) -> Stepped
    ensures { Written (Continuing (Planned c (trim_plan limits16 (view c))) result.replay) b.old w result.written b.new }
{
    Stepped::replied(c.trim(), b, w)
}

// 7. safe
pub fn safe(c: Cabinet, change: u32, b: &mut [u8], w: Progress) -> Stepped
    ensures { Written (Continuing (Planned c (safe_plan limits16 (view c) change)) result.replay) b.old w result.written b.new }
{
    let a = c.safe(change);
    let written = list_whole::put_safe(b, w, a.reply);
    Stepped::with(a.cabinet, written)
}

// 10. roll
pub fn roll(c: Cabinet, card: u32, b: &mut [u8], w: Progress) -> Stepped
    ensures { Written (Continuing (Planned c (roll_plan limits16 (view c) card)) result.replay) b.old w result.written b.new }
{
    Stepped::replied(c.roll(card), b, w)
}
