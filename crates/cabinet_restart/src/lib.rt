// Restart: the cabinet out of the sheets of all cards, joined.
#![tactic(auto)]

ghost use Rattle.std.specs.Prelude.{◌≡◌};
ghost use Rattle.cabinet_layout.specs.Answers.{reply_of};
ghost use Rattle.cabinet_restart.specs.Restart.{Within, restarted_cabinet, Restarted};

use cabinet::{Answer, Cabinet};
use cabinet_layout::Phase;
use sheet_pages::Readout;

// The cabinet that restarts from a read-out.
fn restarted(r: Readout) -> Cabinet
    requires { Within r }
    ensures { result ≡ restarted_cabinet r }
{
    let Readout {
        bases,
        counts,
        sessions,
        cards,
        ..
    } = r;
    let stored = sheet_vectors::stored_numbers(bases, counts);
    let low = sheet_sessions::lowest(sessions, cards - 1);
    let head = cabinet_layout::head_of(low, cards, Phase::Rolling);
    let last = cabinet_recalling::last_vectors(&r.entries, bases, stored);
    let mut core = cabinet_layout::blank(head);
    core.last = last;
    core.pending = last;
    core.base = bases;
    core.stored = stored;
    core.held = stored;
    core.reached = stored;
    core.line = cabinet_recovery::lines(&r.entries, head, bases, stored, stored);
    core.rolled = cabinet_recalling::rolled_cards(sessions, low);
    let Readout {
        entries,
        changes,
        ..
    } = r;
    Cabinet {
        entries,
        changes,
        core,
    }
}

// "It gives a cabinet in phase rolling with the line fixed and the lowest session found"; a refusal hands back the void cabinet.
pub fn restart(bytes: &[u8]) -> Answer<()>
    ensures { Restarted bytes.now (reply_of result.reply) result.cabinet }
{
    let read = sheet_readout::read_readout(bytes);
    match read.verdict {
        Ok(()) => Answer {
            cabinet: restarted(read.readout),
            reply: Ok(()),
        },
        Err(q) => Answer {
            cabinet: cabinet::zeros(cabinet_layout::head_of(0, 0, Phase::Up)),
            reply: Err(q),
        },
    }
}
