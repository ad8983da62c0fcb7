// What a line of a list of calls can say, with the limits of its numbers.
#![tactic(auto)]

ghost use Rattle.std.specs.Prelude.{◌≡◌};
ghost use Rattle.list_commands.specs.Calls.{as_fix, as_sheet, as_vote};

use base_limits::Limits;

// A call on the present cabinet, with its numbers.
#[derive(Clone, Copy)]
pub enum Request {
    Open {
        reads: u32,
        writes: u32,
    },
    Vote {
        change: u32,
        card: u32,
        agrees: bool,
    },
    Take {
        change: u32,
        card: u32,
    },
    Withdraw(u32),
    Store {
        card: u32,
        state: u32,
    },
    Begin {
        card: u32,
        state: u32,
    },
    End {
        card: u32,
        state: u32,
    },
    Trim,
    Safe(u32),
    Lose(u32),
    Fix {
        records: u32,
        numbers: u32,
    },
    Roll(u32),
    Sheet {
        card: u32,
        bytes: u32,
    },
    Restart,
    Show,
    Frames(u32),
}

// What a line says: a fresh cabinet of so many cards, a call on the present one, or neither.
#[derive(Clone, Copy)]
pub enum Command {
    Fresh(u32),
    Asks(Request),
    Unreadable,
}

// Fix, with at most 16 card records and 776 change numbers.
pub fn as_fix(records: u32, numbers: u32) -> Command
    ensures { result ≡ as_fix records numbers }
{
    if Limits::CARDS_U32 < records {
        return Command::Unreadable;
    }
    if Limits::MOST_LOST_U32 < numbers {
        return Command::Unreadable;
    }
    Command::Asks(Request::Fix { records, numbers })
}

// Sheet, with at most 65536 bytes.
pub fn as_sheet(card: u32, bytes: u32) -> Command
    ensures { result ≡ as_sheet card bytes }
{
    if Limits::LONGEST_U32 < bytes {
        return Command::Unreadable;
    }
    Command::Asks(Request::Sheet { card, bytes })
}

// A vote, which is 0 or 1.
pub fn as_vote(change: u32, card: u32, yes: u32) -> Command
    ensures { result ≡ as_vote change card yes }
{
    if 1 < yes {
        return Command::Unreadable;
    }
    Command::Asks(Request::Vote {
        change,
        card,
        agrees: yes == 1,
    })
}
