// Which call a word and the numbers after it are.
#![tactic(auto)]

ghost use Rattle.std.specs.Prelude.{◌≡◌};
ghost use Rattle.list_names.specs.Names.{parse_bare, parse_one, parse_two, parse_three, parse_with};

use list_commands::{Command, Request};
use list_words::{Figures, Malformed};

// The names are compared one after the other: of a `match` on byte strings the proof knows only the lengths, and did not close.
// The calls with no number.
fn say_bare(word: &[u8]) -> Command
    ensures { result ≡ parse_bare word.now }
{
    if base_search::is_same(word, b"trim") {
        return Command::Asks(Request::Trim);
    }
    if base_search::is_same(word, b"restart") {
        return Command::Asks(Request::Restart);
    }
    if base_search::is_same(word, b"show") {
        return Command::Asks(Request::Show);
    }
    Command::Unreadable
}

// The calls with one number.
fn say_one(word: &[u8], a: u32) -> Command
    ensures { result ≡ parse_one word.now a }
{
    if base_search::is_same(word, b"fresh") {
        return Command::Fresh(a);
    }
    if base_search::is_same(word, b"withdraw") {
        return Command::Asks(Request::Withdraw(a));
    }
    if base_search::is_same(word, b"safe") {
        return Command::Asks(Request::Safe(a));
    }
    if base_search::is_same(word, b"lose") {
        return Command::Asks(Request::Lose(a));
    }
    if base_search::is_same(word, b"roll") {
        return Command::Asks(Request::Roll(a));
    }
    if base_search::is_same(word, b"frames") {
        return Command::Asks(Request::Frames(a));
    }
    Command::Unreadable
}

// The calls with two numbers.
fn say_two(word: &[u8], a: u32, b: u32) -> Command
    ensures { result ≡ parse_two word.now a b }
{
    if base_search::is_same(word, b"open") {
        return Command::Asks(Request::Open {
            reads: a,
            writes: b,
        });
    }
    if base_search::is_same(word, b"take") {
        return Command::Asks(Request::Take { change: a, card: b });
    }
    if base_search::is_same(word, b"store") {
        return Command::Asks(Request::Store { card: a, state: b });
    }
    if base_search::is_same(word, b"begin") {
        return Command::Asks(Request::Begin { card: a, state: b });
    }
    if base_search::is_same(word, b"end") {
        return Command::Asks(Request::End { card: a, state: b });
    }
    if base_search::is_same(word, b"fix") {
        return list_commands::as_fix(a, b);
    }
    if base_search::is_same(word, b"sheet") {
        return list_commands::as_sheet(a, b);
    }
    Command::Unreadable
}

// The call with three numbers.
fn say_three(word: &[u8], a: u32, b: u32, c: u32) -> Command
    ensures { result ≡ parse_three word.now a b c }
{
    if base_search::is_same(word, b"vote") {
        return list_commands::as_vote(a, b, c);
    }
    Command::Unreadable
}

// The call that a word and the numbers after it are.
pub fn say_with(word: &[u8], f: Result<Figures, Malformed>) -> Command
    ensures { result ≡ parse_with word.now f }
{
    match f {
        Ok(Figures::Zero) => say_bare(word),
        Ok(Figures::One(a)) => say_one(word, a),
        Ok(Figures::Two(a, b)) => say_two(word, a, b),
        Ok(Figures::Three(a, b, c)) => say_three(word, a, b, c),
        Err(_) => Command::Unreadable,
    }
}
