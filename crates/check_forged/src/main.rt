// What no short list of calls from a fresh cabinet reaches: 28 of each kind, numbers at their limits, what is lent and kept
// beyond an answer, sheets of a ring with any numbers, and state 60,000.
#![tactic(auto)]

ghost use Rattle.std.specs.Prelude.{◌<◌};
ghost use Rattle.std.specs.Fn.{FnOnceReturnsAtMut};

use base_limits::Limits;
use cabinet::Cabinet;
use cabinet_layout::{Core, Head, Phase};
use lists::run;

mod lent;
mod lists;
mod pages;
mod summit;
mod writes;

pub const LAST: u32 = Limits::GREATEST_NUMBER;

const HIGHEST: u32 = Limits::GREATEST_STATE;

// Two cards, with a last change number.
pub fn head(session: u32, phase: Phase, last_change: u32) -> Head {
    cabinet_layout::counted(cabinet_layout::head_of(session, 2, phase), last_change)
}

// The cabinet with that change made to it.
pub fn changed<F: FnOnce(&mut Cabinet)>(mut cabinet: Cabinet, change: F) -> Cabinet
    requires { F.IsAlwaysCallable change }
    ensures { FnOnceReturnsAtMut F.FnOnce change cabinet tt result }
{
    change(&mut cabinet);
    cabinet
}

// Two cards, in that session and phase.
pub fn headed(head: Head) -> Cabinet {
    changed(Cabinet::fresh(2).cabinet, |c| c.core.head = head)
}

// Card 0 has reached state 1, by change 1, in that phase.
pub fn one_frame(phase: Phase) -> Cabinet {
    changed(headed(head(1, phase, 1)), |c| {
        c.changes[1] = 1;
        c.entries[Limits::CARDS] = 1;
        c.core.held[0] = 1;
        c.core.reached[0] = 1;
    })
}

// And state 2, by change 2.
fn two_frames() -> Cabinet {
    changed(one_frame(Phase::Up), |c| {
        c.core.held[0] = 2;
        c.core.reached[0] = 2;
        c.changes[2] = 2;
        c.entries[32] = 2;
    })
}

// Each call, refused with 28, and what the cabinet is after them.
pub fn all_calls(rt: &(impl Print + Eprint), cabinet: Cabinet) {
    run(
        rt,
        cabinet,
        "open 0 1\nvote 1 0 1\ntake 1 0\nwithdraw 1\nstore 0 0\nbegin 0 0\nend 0 0\ntrim\nsafe 1\nlose 0\nfix 16 776\nroll 0\nsheet 0 65536\nrestart\n",
    );
}

// Each call on a cabinet that is up, with that change made to it.
pub fn up<F: FnOnce(&mut Cabinet)>(rt: &(impl Print + Eprint), change: F)
    requires { F.IsAlwaysCallable change }
{
    all_calls(rt, changed(one_frame(Phase::Up), change));
}

// "cabinet has session 0 (while rolling also 4,294,967,295), a number of cards .. outside the limits above"
fn heads(rt: &(impl Print + Eprint)) {
    all_calls(rt, headed(head(0, Phase::Up, 1)));
    all_calls(rt, headed(head(0, Phase::Down, 1)));
    all_calls(rt, headed(head(0, Phase::Rolling, 1)));
    all_calls(rt, headed(head(LAST, Phase::Rolling, 1)));
    all_calls(rt, headed(cabinet_layout::head_of(1, 0, Phase::Up)));
    all_calls(
        rt,
        headed(cabinet_layout::head_of(1, Limits::CARDS_U32 + 1, Phase::Up)),
    );
}

// "state number .. outside the limits above"
fn numbers(rt: &(impl Print + Eprint)) {
    up(rt, |c| c.core.base[0] = 1);
    up(rt, |c| c.core.stored[0] = 2);
    up(rt, |c| c.core.held[0] = 2);
    up(rt, |c| c.core.reached[0] = Limits::IN_HAND_U32 + 1);
    up(rt, |c| c.core.reached[0] = HIGHEST + 1);
}

// "entry outside the limits above, an entry of an absent card that isn't none"
fn entries(rt: &(impl Print + Eprint)) {
    up(rt, |c| c.core.last[0].entries[0] = HIGHEST + 1);
    up(rt, |c| c.core.pending[1].entries[2] = 1);
    up(rt, |c| c.core.last[5].entries[0] = 1);
}

// "[an open change] that touches an absent card or has yet to write a card at base + 48 or 60,000", or has an entry outside the
// limits
fn changes(rt: &(impl Print + Eprint)) {
    up(rt, |c| {
        c.core.slots[3].number = 1;
        c.core.slots[3].writes = 4;
    });
    up(rt, |c| {
        c.core.slots[3].number = 1;
        c.core.slots[3].reads = 4;
    });
    up(rt, |c| {
        c.core.slots[3].number = 1;
        c.core.slots[3].vector[0] = HIGHEST + 1;
    });
    up(rt, |c| {
        c.core.slots[3].number = 1;
        c.core.slots[3].writes = 2;
        at_top(&mut c.core, 1);
    });
}

// A card at state 60,000.
fn at_top(core: &mut Core, card: usize)
    requires { card < 16 }
{
    core.base[card] = HIGHEST;
    core.stored[card] = HIGHEST;
    core.held[card] = HIGHEST;
    core.reached[card] = HIGHEST;
}

// "a kept frame that breaks 9": change 0, own entry, change not rising, an entry falling.
fn frames(rt: &(impl Print + Eprint)) {
    all_calls(rt, changed(two_frames(), |c| c.changes[1] = 0));
    all_calls(rt, changed(two_frames(), |c| c.entries[16] = 2));
    all_calls(rt, changed(two_frames(), |c| c.changes[2] = 1));
    all_calls(rt, changed(two_frames(), |c| c.entries[17] = 5));
}

// "while rolling a fixed line outside base to stored"
fn lines(rt: &(impl Print + Eprint)) {
    all_calls(
        rt,
        changed(one_frame(Phase::Rolling), |c| c.core.line[0] = 1),
    );
}

// What is no fault: a frame more, and the last session while up. Then numbers at their limits.
fn at_limits(rt: &(impl Print + Eprint)) {
    run(rt, two_frames(), "lose 0\nfix 2 20\n");
    run(
        rt,
        headed(head(LAST, Phase::Up, 0)),
        "lose 0\nfix 0 0\nfix 2 20\n",
    );
    run(
        rt,
        headed(head(LAST - 1, Phase::Down, 0)),
        "fix 2 20\nroll 0\nroll 1\nshow\nrestart\n",
    );
    run(
        rt,
        headed(head(1, Phase::Up, LAST - 1)),
        "open 0 1\nopen 0 2\nopen 2 0\n",
    );
    run(
        rt,
        changed(headed(head(1, Phase::Up, 0)), |c| at_top(&mut c.core, 0)),
        "open 0 1\nopen 1 2\nopen 0 3\nshow\n",
    );
}

fn main(rt: HostRuntime) {
    heads(&rt);
    numbers(&rt);
    entries(&rt);
    changes(&rt);
    frames(&rt);
    lines(&rt);
    all_calls(&rt, Cabinet::fresh(0).cabinet);
    at_limits(&rt);
    writes::check(&rt);
    lent::check(&rt);
    pages::check(&rt);
    summit::check(&rt);
}
