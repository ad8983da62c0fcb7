// Each call as the demands speak of it: the contract of the method is what the lists of calls take it to be.
#![tactic(auto)]

ghost use Rattle.std.specs.Prelude.{min, [], take as takes};
ghost use Rattle.cabinet_layout.specs.Answers.{reply_of, open_reply_of, safe_reply_of};
ghost use Rattle.cabinet_recovery.specs.Fix.{fix_reply_of};
ghost use Rattle.cabinet_sheet.specs.Card.{sheet_reply_of};
ghost use Rattle.cabinet.specs.Fresh.{Freshly};
ghost use Rattle.theory_protocol.specs.Run.{vote_call, take_call, withdraw_call, store_call, begin_call, end_call, trim_call, safe_call, roll_call};
ghost use Rattle.demands_lists.specs.Lists.{opening, plain, lose, fix, sheet, restart, nothing_lent, Answered};

use base_limits::Limits;
use cabinet::recover::RecordsAnswer;
use cabinet::{Answer, Cabinet};
use cabinet_layout::Safety;
use cabinet_records::CardRecord;

// A fresh cabinet, with which a list begins.
pub fn fresh(cards: u32) -> Answer<()>
    ensures { Freshly cards (reply_of result.reply) result.cabinet }
{
    Cabinet::fresh(cards)
}

// 1. open
pub fn open(c: Cabinet, reads: u16, writes: u16) -> Answer<u32>
    ensures { Answered c (opening reads writes) (open_reply_of result.reply) result.cabinet nothing_lent }
{
    c.open(reads, writes)
}

// 2. vote
pub fn vote(c: Cabinet, change: u32, card: u32, agrees: bool) -> Answer<()>
    ensures { Answered c (plain (vote_call change card agrees)) (reply_of result.reply) result.cabinet nothing_lent }
{
    c.vote(change, card, agrees)
}

// 3. take
pub fn take(c: Cabinet, change: u32, card: u32) -> Answer<()>
    ensures { Answered c (plain (take_call change card)) (reply_of result.reply) result.cabinet nothing_lent }
{
    c.take(change, card)
}

// 4. withdraw
pub fn withdraw(c: Cabinet, change: u32) -> Answer<()>
    ensures { Answered c (plain (withdraw_call change)) (reply_of result.reply) result.cabinet nothing_lent }
{
    c.withdraw(change)
}

// 5. store
pub fn store(c: Cabinet, card: u32, state: u32) -> Answer<()>
    ensures { Answered c (plain (store_call card state)) (reply_of result.reply) result.cabinet nothing_lent }
{
    c.store(card, state)
}

// The beginning of a store (document 02, wish 5).
pub fn begin(c: Cabinet, card: u32, state: u32) -> Answer<()>
    ensures { Answered c (plain (begin_call card state)) (reply_of result.reply) result.cabinet nothing_lent }
{
    c.begin(card, state)
}

// The end of a store.
pub fn end(c: Cabinet, card: u32, state: u32) -> Answer<()>
    ensures { Answered c (plain (end_call card state)) (reply_of result.reply) result.cabinet nothing_lent }
{
    c.end(card, state)
}

// 6. trim
pub fn trim(c: Cabinet) -> Answer<()>
    ensures { Answered c (plain trim_call) (reply_of result.reply) result.cabinet nothing_lent }
{
    c.trim()
}

// 7. safe
pub fn safe(c: Cabinet, change: u32) -> Answer<Safety>
    ensures { Answered c (plain (safe_call change)) (safe_reply_of result.reply) result.cabinet nothing_lent }
{
    c.safe(change)
}

// 8. lose
pub fn lose(c: Cabinet, cards: u16) -> Answer<()>
    ensures { Answered c (lose cards) (reply_of result.reply) result.cabinet nothing_lent }
{
    c.lose(cards)
}

// 9. fix, with both lists lent: so many places of an array of card records
pub fn fix<'a>(
    c: Cabinet,
    records: [CardRecord; Limits::CARDS],
    places: usize,
    list: &'a mut [u32],
) -> RecordsAnswer
    ensures { Answered c (fix (takes (min places 16) records) list.old) (fix_reply_of c.core.head.cards result.answer.cabinet.core.stored result.answer.cabinet.core.line list.new result.answer.reply) result.answer.cabinet (record { records = takes (min places 16) result.records; numbers = list.new }) }
{
    c.fix_array(records, places, list)
}

// 10. roll
pub fn roll(c: Cabinet, card: u32) -> Answer<()>
    ensures { Answered c (plain (roll_call card)) (reply_of result.reply) result.cabinet nothing_lent }
{
    c.roll(card)
}

// A card's sheet, into a lent buffer
pub fn sheet<'a>(c: Cabinet, card: u32, buffer: &'a mut [u8]) -> Answer<usize>
    ensures { Answered c (sheet card buffer.old) (sheet_reply_of buffer.new result.reply) result.cabinet (record { records = []; numbers = buffer.new }) }
{
    c.sheet(card, buffer)
}

// Restart from the sheets of all cards as this cabinet writes them, joined
pub fn restart(c: Cabinet) -> Answer<()>
    ensures { Answered c restart (reply_of result.reply) result.cabinet nothing_lent }
{
    cabinet_joined::restart(c)
}
