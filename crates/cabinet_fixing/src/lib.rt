// Call 9 over lent frames and the core of a cabinet: fix, and what goes into the list of card records.
#![tactic(auto)]

ghost use Rattle.std.specs.Prelude.{◌≡◌};
ghost use Rattle.cabinet_fixing.specs.Fixed.{numbers_of, CoreFixed};

use base_limits::Limits;
use base_refusal::Refusal;
use cabinet_layout::{Core, CoreAnswer, Phase};
use cabinet_records::CardNumbers;
use cabinet_recovery::Outcome;

// 9. fix but for the card records, for which there are so many places.
pub fn fix<'a, 'b>(
    list: &'a mut [u32],
    entries: &'b [u32; Limits::ENTRIES],
    changes: &'b [u32; Limits::FRAMES],
    mut core: Core,
    places: usize,
) -> CoreAnswer<usize>
    ensures { CoreFixed entries.now changes.now core places list.old list.new result.reply result.core }
{
    let Outcome { line, reply } = cabinet_lost::fix(list, entries, changes, core, places);
    if reply.is_ok() {
        core.line = line;
        core.ended = [0u32; Limits::SLOTS];
        core.rolled = 0;
        core.head = cabinet_layout::in_phase(core.head, Phase::Rolling);
    }
    CoreAnswer { core, reply }
}

// What there is to put into the list of card records: the numbers of every card, and of none where fix is refused.
pub fn numbers_of(reply: Result<usize, Refusal>, core: Core) -> CardNumbers
    ensures { result ≡ numbers_of reply core }
{
    let Core {
        head,
        stored,
        line,
        ..
    } = core;
    CardNumbers {
        cards: reply.map_or(0, |_| head.cards as usize),
        first: stored,
        second: line,
    }
}
