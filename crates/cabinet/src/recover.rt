// Calls 6, 9 and 10 as methods: trim, fix, roll.
ghost use Rattle.std.specs.Prelude.{min};
ghost use Rattle.theory_protocol.specs.Calls.{trim_plan, roll_plan};
ghost use Rattle.cabinet_layout.specs.Shape.{limits16};
ghost use Rattle.cabinet_layout.specs.Answers.{reply_of};
ghost use Rattle.cabinet.specs.View.{view};
ghost use Rattle.cabinet.specs.Apply.{Carried};
ghost use Rattle.cabinet.specs.Fixing.{FixCarried};
ghost use Rattle.cabinet.specs.Lent.{FixLent, FixPart};

use crate::{Answer, Cabinet};
use base_limits::Limits;
use cabinet_layout::CoreAnswer;
use cabinet_records::CardRecord;

// What fix hands back to a caller whose card records are an array of its own.
#[derive(Drop)]
pub struct RecordsAnswer {
    pub answer: Answer<usize>,
    pub records: [CardRecord; Limits::CARDS],
}

impl Cabinet {
    // 6. trim
    pub fn trim(mut self) -> Answer<()>
        ensures { Carried self (trim_plan limits16 (view self)) (reply_of result.reply) result.cabinet }
    {
        let CoreAnswer { core, reply } = cabinet_trimming::trim(
            &self.entries,
            &self.changes,
            self.core,
        );
        self.core = core;
        Answer {
            cabinet: self,
            reply,
        }
    }

    // Fix but for the card records, for which there are so many places.
    fn fixed<'a>(self, places: usize, list: &'a mut [u32]) -> Answer<usize>
        ensures { FixCarried self places list.old list.new result.reply result.cabinet }
    {
        let CoreAnswer { core, reply } = cabinet_fixing::fix(
            list,
            &self.entries,
            &self.changes,
            self.core,
            places,
        );
        // a copy made after the verdict, as in `lose`
        let mut next = self;
        next.core = core;
        Answer {
            cabinet: next,
            reply,
        }
    }

    // 9. fix: the card records, and the numbers of the changes lost in rising order, go into the lists that the caller lends.
    pub fn fix<'a, 'b>(self, records: &'a mut [CardRecord], list: &'b mut [u32]) -> Answer<usize>
        ensures { FixLent self records.old records.new list.old list.new result.reply result.cabinet }
    {
        let answer = self.fixed(records.len(), list);
        let numbers = cabinet_fixing::numbers_of(answer.reply, answer.cabinet.core);
        cabinet_records::fill(records, numbers);
        answer
    }

    // 9. fix for a caller whose card records are an array by value: so many places of its front are lent, and the array handed back.
    pub fn fix_array<'a>(
        self,
        mut records: [CardRecord; Limits::CARDS],
        places: usize,
        list: &'a mut [u32],
    ) -> RecordsAnswer
        ensures { FixPart self (min places 16) records result.records list.old list.new result.answer.reply result.answer.cabinet }
    {
        let n = places.min(Limits::CARDS);
        let answer = self.fix(&mut records[..n], list);
        RecordsAnswer { answer, records }
    }

    // 10. roll
    pub fn roll(self, card: u32) -> Answer<()>
        ensures { Carried self (roll_plan limits16 (view self) card) (reply_of result.reply) result.cabinet }
    {
        self.on_core(|valid, core| cabinet_rolling::roll(valid, core, card))
    }
}
