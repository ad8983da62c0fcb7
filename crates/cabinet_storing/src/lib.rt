// Calls 5 and 8 over the core of a cabinet: store, its beginning and its end (document 02, wish 5), lose. Each is told what the check for 28 found.
#![tactic(auto)]

ghost use Rattle.std.specs.Prelude.{◌≡◌, true};
ghost use Rattle.base_bits.specs.Member.{member};
ghost use Rattle.cabinet_layout.specs.Answers.{reply_of};
ghost use Rattle.cabinet_layout.specs.Applied.{CoreCarried};
ghost use Rattle.cabinet_plans.specs.Plans.{Stands, store_on, begin_on, end_on, lose_on};

use cabinet_layout::{Core, CoreAnswer, Phase};
use cabinet_replies::{end_verdict, lose_verdict, store_verdict};

// 5. store
pub fn store(valid: bool, mut core: Core, card: u32, state: u32) -> CoreAnswer<()>
    ensures { CoreCarried core (store_on valid core card state) (reply_of result.reply) result.core }
{
    let Core {
        head,
        stored,
        held,
        writing,
        ..
    } = core;
    let reply = store_verdict(valid, head, stored, held, writing, card, state);
    if reply.is_ok() {
        core.stored[card as usize] = state;
    }
    CoreAnswer { core, reply }
}

// The beginning of a store: a write up to that state runs.
pub fn begin(valid: bool, mut core: Core, card: u32, last: u32) -> CoreAnswer<()>
    requires { valid ≡ true → Stands core }
    ensures { CoreCarried core (begin_on valid core card last) (reply_of result.reply) result.core }
{
    let Core {
        head,
        stored,
        held,
        writing,
        ..
    } = core;
    let reply = store_verdict(valid, head, stored, held, writing, card, last);
    if reply.is_ok() {
        core.writing[card as usize] = last + 1;
    }
    CoreAnswer { core, reply }
}

// The end of a store: that state is reported.
pub fn end(valid: bool, mut core: Core, card: u32, reported: u32) -> CoreAnswer<()>
    ensures { CoreCarried core (end_on valid core card reported) (reply_of result.reply) result.core }
{
    let Core {
        head,
        stored,
        writing,
        ..
    } = core;
    let reply = end_verdict(valid, head, stored, writing, card, reported);
    if reply.is_ok() {
        let c = card as usize;
        let high = cabinet_vectors::greater(core.held[c], reported);
        core.stored[c] = reported;
        core.held[c] = high;
        core.writing[c] = 0;
    }
    CoreAnswer { core, reply }
}

// 8. lose
pub fn lose(valid: bool, mut core: Core, cards: u16) -> CoreAnswer<()>
    ensures { CoreCarried core (lose_on valid core (member cards)) (reply_of result.reply) result.core }
{
    let reply = lose_verdict(valid, core.head, cards);
    if reply.is_ok() {
        core.held = cabinet_losing::fallen(core.held, core.stored, cards);
        if cabinet_layout::is_up(core.head.phase) {
            core.ended = cabinet_losing::ended_numbers(core.slots);
            core.slots = cabinet_losing::no_slots();
            core.head = cabinet_layout::in_phase(core.head, Phase::Down);
        }
    }
    CoreAnswer { core, reply }
}
