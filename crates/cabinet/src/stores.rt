// Calls 5, 7 and 8 as methods: store, its beginning and its end, safe, lose.
ghost use Rattle.base_bits.specs.Member.{member};
ghost use Rattle.theory_protocol.specs.Calls.{store_plan, begin_plan, end_plan, safe_plan, lose_plan};
ghost use Rattle.cabinet_layout.specs.Shape.{limits16};
ghost use Rattle.cabinet_layout.specs.Answers.{reply_of, safe_reply_of};
ghost use Rattle.cabinet.specs.View.{view};
ghost use Rattle.cabinet.specs.Apply.{Carried};

use crate::{Answer, Cabinet};
use cabinet_layout::Safety;

impl Cabinet {
    // 5. store
    pub fn store(self, card: u32, state: u32) -> Answer<()>
        ensures { Carried self (store_plan limits16 (view self) card state) (reply_of result.reply) result.cabinet }
    {
        self.on_core(|valid, core| cabinet_storing::store(valid, core, card, state))
    }

    // The beginning of a store (document 02, wish 5): a write up to that state runs.
    pub fn begin(self, card: u32, state: u32) -> Answer<()>
        ensures { Carried self (begin_plan limits16 (view self) card state) (reply_of result.reply) result.cabinet }
    {
        self.on_core(|valid, core| cabinet_storing::begin(valid, core, card, state))
    }

    // The end of a store: the card reports that state.
    pub fn end(self, card: u32, state: u32) -> Answer<()>
        ensures { Carried self (end_plan limits16 (view self) card state) (reply_of result.reply) result.cabinet }
    {
        self.on_core(|valid, core| cabinet_storing::end(valid, core, card, state))
    }

    // 7. safe
    pub fn safe(self, change: u32) -> Answer<Safety>
        ensures { Carried self (safe_plan limits16 (view self) change) (safe_reply_of result.reply) result.cabinet }
    {
        let reply = cabinet_trimming::safe(&self.entries, &self.changes, self.core, change);
        Answer {
            cabinet: self,
            reply,
        }
    }

    // 8. lose
    pub fn lose(self, cards: u16) -> Answer<()>
        ensures { Carried self (lose_plan limits16 (view self) (member cards)) (reply_of result.reply) result.cabinet }
    {
        // not by `on_core`: put into a copy made after the verdict, the core makes no copy more, as it does in the cabinet that came in
        let valid = cabinet_valid::cabinet_valid(&self.entries, &self.changes, self.core);
        let out = cabinet_storing::lose(valid, self.core, cards);
        let mut next = self;
        next.core = out.core;
        Answer {
            cabinet: next,
            reply: out.reply,
        }
    }
}
