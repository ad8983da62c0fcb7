// The cabinet of 16 cards: its struct, and its calls as methods that hand it back, in the modules below.
#![tactic(auto)]

ghost use Rattle.std.specs.Prelude.{[], ◌∷◌, ◌≡◌};
ghost use Rattle.base_limits.specs.Document.{most_cards, most_in_hand, most_open, last_state};
ghost use Rattle.theory_protocol.specs.Valid.{valid};
ghost use Rattle.cabinet_layout.specs.Answers.{reply_of};
ghost use Rattle.cabinet_layout.specs.Shape.{limits16};
ghost use Rattle.cabinet_layout.specs.declared.CoreAnswer.{CoreAnswer};
ghost use Rattle.cabinet.specs.Apply.{with_core};
ghost use Rattle.cabinet.specs.Fresh.{Freshly, zero_cabinet};
ghost use Rattle.cabinet.specs.View.{view};

use base_limits::Limits;
use base_refusal::Refusal;
use cabinet_layout::{Core, CoreAnswer, Head, Phase};

pub mod recover;
pub mod sheets;
pub mod stores;
pub mod votes;

// A cabinet by value. Frames stand in a ring: state x of card c has the place c * 48 + x % 48.
#[derive(Clone, Copy)]
pub struct Cabinet {
    // the vectors of the frames, 16 entries each
    pub entries: [u32; Limits::ENTRIES],
    // the changes that made the states of the frames
    pub changes: [u32; Limits::FRAMES],
    // all but the frames; its head stands right after them, and they then are copied once
    pub core: Core,
}

// What a call hands back: the next cabinet, and what it answers, or its refusal.
#[derive(Drop)]
pub struct Answer<T> {
    pub cabinet: Cabinet,
    pub reply: Result<T, Refusal>,
}

// All state numbers 0, all entries none, every slot free, no write running.
pub fn zeros(head: Head) -> Cabinet
    ensures { result ≡ zero_cabinet head }
{
    let none = [0u32; Limits::CARDS];
    let vectors = cabinet_layout::no_vectors();
    let free = cabinet_layout::free_slot();
    // written out: a core that `cabinet_layout::blank` hands over would be copied once more
    let core = Core {
        head: head,
        last: vectors,
        pending: vectors,
        slots: [free; Limits::SLOTS],
        base: none,
        stored: none,
        held: none,
        reached: none,
        line: none,
        ended: [0u32; Limits::SLOTS],
        rolled: 0,
        writing: none,
    };
    Cabinet {
        entries: [0u32; Limits::ENTRIES],
        changes: [0u32; Limits::FRAMES],
        core: core,
    }
}

impl Cabinet {
    // "the limits 16, 48, 8 and 60,000"
    pub const WIDTH: u32 = Limits::CARDS_U32;

    pub const IN_HAND: u32 = Limits::IN_HAND_U32;

    pub const SLOTS: u32 = Limits::SLOTS as u32;

    pub const GREATEST_STATE: u32 = Limits::GREATEST_STATE;

    // These four are the definitions' limits.
    pub fn limits() -> [u32; 4]
        ensures { result ≡ most_cards ∷ most_in_hand ∷ most_open ∷ last_state ∷ [] }
    {
        [
            Cabinet::WIDTH,
            Cabinet::IN_HAND,
            Cabinet::SLOTS,
            Cabinet::GREATEST_STATE,
        ]
    }

    // "A fresh cabinet has session 1, phase up, all state numbers 0, all entries none"; refusal 1 hands back the void cabinet.
    pub fn fresh(cards: u32) -> Answer<()>
        ensures { Freshly cards (reply_of result.reply) result.cabinet }
    {
        // by way of a name: laid right into the answer, the zeros are made and copied each time a line of a list is done
        if cabinet_parts::cards_fit(cards) {
            let cabinet = zeros(cabinet_parts::fresh_head(cards));
            Answer {
                cabinet,
                reply: Ok(()),
            }
        } else {
            let cabinet = zeros(cabinet_layout::head_of(0, 0, Phase::Up));
            Answer {
                cabinet,
                reply: Err(Refusal::CardCount),
            }
        }
    }

    // A call on the core that is told what the check for 28 found; the core that it hands back is put back.
    #[inline(always)]
    pub(crate) fn on_core<T, F: FnOnce(bool, Core) -> CoreAnswer<T>>(mut self, call: F) -> Answer<T>
        requires { F.pre call (valid limits16 (view self)) self.core }
        ensures { (out : CoreAnswer T) × F.post call (valid limits16 (view self)) self.core out × (result.reply ≡ out.reply) × (result.cabinet ≡ with_core self out.core) }
    {
        let valid = cabinet_valid::cabinet_valid(&self.entries, &self.changes, self.core);
        let CoreAnswer { core, reply } = call(valid, self.core);
        self.core = core;
        Answer {
            cabinet: self,
            reply,
        }
    }
}
