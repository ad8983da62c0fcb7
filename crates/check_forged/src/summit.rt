// Card 0 brought to state 60,000, its last, in 100 sessions of 600 changes each, and asked for more: refusal 24, which no short
// list of calls reaches. A climb that failed shows in the answers.
ghost use Rattle.std.specs.Prelude.{◌<◌};

use crate::lists::run;
use base_limits::Limits;
use cabinet::Cabinet;
use cabinet_records::CardRecord;

const SESSIONS: u32 = 100;

const CHANGES: u32 = Limits::GREATEST_STATE / SESSIONS;

// Change k of the session takes card 0 to its next state, which is stored and trimmed.
fn rise(c: Cabinet, k: u32, state: u32) -> Cabinet {
    let a = c.open(0, 1);
    let a = a.cabinet.vote(k, 0, true);
    let a = a.cabinet.take(k, 0);
    let a = a.cabinet.store(0, state);
    a.cabinet.trim().cabinet
}

// The changes of a session.
fn session(mut c: Cabinet, from: u32) -> Cabinet
    requires { from < 60000 }
{
    for k in 1..=CHANGES {
        c = rise(c, k, from + k);
    }
    c
}

// No card is lost, and the next session begins.
fn renew(c: Cabinet) -> Cabinet {
    let zero = CardRecord {
        card: 0,
        stored: 0,
        line: 0,
    };
    let mut list = [0u32; 1];
    let a = c.lose(0);
    let out = a.cabinet.fix_array([zero; Limits::CARDS], 2, &mut list);
    let a = out.answer.cabinet.roll(0);
    a.cabinet.roll(1).cabinet
}

// All sessions.
fn climbed() -> Cabinet {
    let mut c = Cabinet::fresh(2).cabinet;
    for s in 0..SESSIONS {
        c = renew(session(c, s * CHANGES));
    }
    c
}

// At the last state the card can be read, and not written; its sheet, a loss, a restart and the rolls keep it there.
pub fn check(rt: &(impl Print + Eprint)) {
    run(
        rt,
        climbed(),
        "show\nopen 0 1\nopen 0 3\nopen 1 2\nvote 1 0 1\nvote 1 1 1\ntake 1 0\ntake 1 1\nopen 3 1\nsheet 0 65536\nlose 2\nfix 2 1\nrestart\nroll 1\nroll 0\nshow\n",
    );
}
