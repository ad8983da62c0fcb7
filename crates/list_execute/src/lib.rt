// The lines of a list: a call on the present cabinet, a fresh one, or none of them, each with its answer written.
#![tactic(auto)]

ghost use Rattle.list_answer_words.specs.Words.{none_text, unreadable_text};
ghost use Rattle.list_results.specs.Result.{Written};
ghost use Rattle.list_results.specs.Step.{Steps, Stays, Freshened};

use base_text::Progress;
use cabinet::Cabinet;
use list_commands::{Command, Request};
use list_results::{Replay, Stepped};

// A fresh cabinet in the place of the present one.
fn freshen(r: Replay, cards: u32, b: &mut [u8], w: Progress) -> Stepped
    ensures { Written (Freshened cards r result.replay) b.old w result.written b.new }
{
    let a = Cabinet::fresh(cards);
    let written = list_whole::put_reply(b, w, a.reply);
    match a.reply {
        Ok(()) => Stepped::with(a.cabinet, written),
        Err(_) => Stepped { replay: r, written },
    }
}

// The replay stays, and there is no cabinet yet.
fn none(r: Replay, b: &mut [u8], w: Progress) -> Stepped
    ensures { Written (Stays r none_text result.replay) b.old w result.written b.new }
{
    let written = list_whole_words::put_none(b, w);
    Stepped { replay: r, written }
}

// The replay stays, and the line can't be read.
fn unreadable(r: Replay, b: &mut [u8], w: Progress) -> Stepped
    ensures { Written (Stays r unreadable_text result.replay) b.old w result.written b.new }
{
    let written = list_whole_words::put_unreadable(b, w);
    Stepped { replay: r, written }
}

// What a line says is done, and its answer written after those before, where it has room. The cabinet goes by value, so all
// calls are made from here: a function between would copy it in and out once more.
pub fn done(r: Replay, said: Command, b: &mut [u8], w: Progress) -> Stepped
    ensures { Written (Steps said r result.replay) b.old w result.written b.new }
{
    match said {
        Command::Fresh(cards) => freshen(r, cards, b, w),
        Command::Unreadable => unreadable(r, b, w),
        Command::Asks(q) => {
            if !r.begun {
                return none(r, b, w);
            }
            let c = r.cabinet;
            match q {
                Request::Open { reads, writes } => list_calls_sets::open(c, reads, writes, b, w),
                Request::Vote {
                    change,
                    card,
                    agrees,
                } => list_calls::vote(c, change, card, agrees, b, w),
                Request::Take { change, card } => list_calls::take(c, change, card, b, w),
                Request::Withdraw(change) => list_calls::withdraw(c, change, b, w),
                Request::Store { card, state } => list_calls::store(c, card, state, b, w),
                Request::Begin { card, state } => list_calls::begin(c, card, state, b, w),
                Request::End { card, state } => list_calls::end(c, card, state, b, w),
                Request::Trim => list_calls::trim(c, b, w),
                Request::Safe(change) => list_calls::safe(c, change, b, w),
                Request::Lose(cards) => list_calls_sets::lose(c, cards, b, w),
                Request::Fix { records, numbers } => list_calls_lent::fix(
                    c, records, numbers, b, w,
                ),
                Request::Roll(card) => list_calls::roll(c, card, b, w),
                Request::Sheet { card, bytes } => list_calls_lent::sheet(c, card, bytes, b, w),
                Request::Restart => list_calls_looks::restart(c, b, w),
                Request::Show => list_calls_looks::show(c, b, w),
                Request::Frames(card) => list_calls_looks::frames(c, card, b, w),
            }
        }
    }
}
