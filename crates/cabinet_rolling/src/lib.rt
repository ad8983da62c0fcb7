// Call 10 over the core of a cabinet: roll. It is told what the check for 28 found.
#![tactic(auto)]

ghost use Rattle.std.specs.Prelude.{◌≡◌, true};
ghost use Rattle.cabinet_layout.specs.Answers.{reply_of};
ghost use Rattle.cabinet_layout.specs.Applied.{CoreCarried};
ghost use Rattle.cabinet_plans.specs.Plans.{Stands, roll_on};

use cabinet_layout::{Core, CoreAnswer, Phase};

// 10. roll
pub fn roll(valid: bool, mut core: Core, card: u32) -> CoreAnswer<()>
    requires { valid ≡ true → Stands core }
    ensures { CoreCarried core (roll_on valid core card) (reply_of result.reply) result.core }
{
    let reply = cabinet_rollback::roll_verdict(valid, core.head, core.rolled, card);
    if reply.is_ok() {
        let c = card as usize;
        let x = core.line[c];
        core.base[c] = x;
        core.stored[c] = x;
        core.held[c] = x;
        core.reached[c] = x;
        let done = cabinet_rollback::is_last(core.head, core.rolled, card);
        core.rolled = cabinet_rollback::rolled_with(core.rolled, card);
        if done {
            let none = cabinet_layout::no_vectors();
            core.last = none;
            core.pending = none;
            core.rolled = 0;
            core.head = cabinet_layout::head_of(core.head.session + 1, core.head.cards, Phase::Up);
        }
    }
    CoreAnswer { core, reply }
}
