// Calls 1 to 4 as methods: open, vote, take, withdraw.
ghost use Rattle.base_bits.specs.Member.{member};
ghost use Rattle.theory_protocol.specs.Calls.{open_plan, take_plan, vote_plan, withdraw_plan};
ghost use Rattle.cabinet_layout.specs.Shape.{limits16};
ghost use Rattle.cabinet_layout.specs.Answers.{reply_of, open_reply_of};
ghost use Rattle.cabinet.specs.View.{view};
ghost use Rattle.cabinet.specs.Apply.{Carried};

use crate::{Answer, Cabinet};

impl Cabinet {
    // 1. open
    pub fn open(self, reads: u16, writes: u16) -> Answer<u32>
        ensures { Carried self (open_plan limits16 (view self) (member reads) (member writes)) (open_reply_of result.reply) result.cabinet }
    {
        self.on_core(|valid, core| cabinet_open::open(valid, core, reads, writes))
    }

    // 2. vote
    pub fn vote(self, change: u32, card: u32, agrees: bool) -> Answer<()>
        ensures { Carried self (vote_plan limits16 (view self) change card agrees) (reply_of result.reply) result.cabinet }
    {
        self.on_core(|valid, core| cabinet_voting::vote(valid, core, change, card, agrees))
    }

    // 3. take
    pub fn take(mut self, change: u32, card: u32) -> Answer<()>
        ensures { Carried self (take_plan limits16 (view self) change card) (reply_of result.reply) result.cabinet }
    {
        let valid = cabinet_valid::cabinet_valid(&self.entries, &self.changes, self.core);
        let out = cabinet_taking::take(valid, self.core, change, card);
        cabinet_frames::put_change(&mut self.changes, card, out.state, out.change);
        cabinet_frames::put_vector(&mut self.entries, card, out.state, out.vector);
        self.core = out.core;
        Answer {
            cabinet: self,
            reply: out.reply,
        }
    }

    // 4. withdraw
    pub fn withdraw(self, change: u32) -> Answer<()>
        ensures { Carried self (withdraw_plan limits16 (view self) change) (reply_of result.reply) result.cabinet }
    {
        self.on_core(|valid, core| cabinet_voting::withdraw(valid, core, change))
    }
}
