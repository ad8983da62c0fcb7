// Writes that run where no list of calls has them run, or at their limits.
use crate::lists::run;
use crate::{LAST, all_calls, changed, head, headed, one_frame, up};
use cabinet_layout::Phase;

// "A running s outside stored to reached, or a write running in phase rolling, is 28." A write is held as the state up to which
// it goes plus one.
fn outside(rt: &(impl Print + Eprint)) {
    up(rt, |c| {
        c.core.stored[0] = 1;
        c.core.writing[0] = 1;
    });
    up(rt, |c| c.core.writing[0] = 3);
    all_calls(
        rt,
        changed(one_frame(Phase::Down), |c| c.core.writing[1] = 2),
    );
    all_calls(
        rt,
        changed(one_frame(Phase::Rolling), |c| c.core.writing[0] = 2),
    );
}

pub fn check(rt: &(impl Print + Eprint)) {
    outside(rt);
    run(
        rt,
        changed(one_frame(Phase::Up), |c| c.core.writing[0] = 1),
        "show\nstore 0 1\nbegin 0 2\nend 0 1\nend 0 0\nshow\n",
    );
    // card 0 holds only what it has stored
    run(
        rt,
        changed(one_frame(Phase::Down), |c| {
            c.core.held[0] = 0;
            c.core.writing[0] = 2;
        }),
        "show\nstore 0 0\nfix 2 20\nend 0 2\nend 0 1\nshow\nfix 2 20\n",
    );
    // a card that is not there is not looked at
    run(
        rt,
        changed(headed(head(1, Phase::Up, 0)), |c| c.core.writing[5] = 9),
        "begin 5 0\nend 5 0\nlose 0\nfix 2 20\nroll 0\nroll 1\nshow\n",
    );
    // 24 before 33, and 33 before 4
    run(
        rt,
        changed(headed(head(LAST, Phase::Down, 0)), |c| {
            c.core.writing[0] = 1;
        }),
        "fix 0 0\nend 0 0\nfix 2 20\n",
    );
    run(
        rt,
        changed(headed(head(1, Phase::Down, 0)), |c| c.core.writing[1] = 1),
        "fix 0 0\nend 1 0\nfix 0 0\nfix 2 20\n",
    );
}
