// Restart from the sheets of all cards as a cabinet writes them, joined.
#![tactic(auto)]

ghost use Rattle.std.specs.Prelude.{◌≤◌, ◌≡◌, true, length, take};
ghost use Rattle.sheet_lines.specs.Format.{formats};
ghost use Rattle.theory_protocol.specs.Valid.{valid};
ghost use Rattle.theory_codec.specs.Sheets.{joined_sheets};
ghost use Rattle.cabinet_layout.specs.Shape.{limits16};
ghost use Rattle.cabinet_layout.specs.Answers.{reply_of};
ghost use Rattle.cabinet.specs.View.{view};
ghost use Rattle.cabinet_joined.specs.Joined.{FromOwnSheets};

use base_limits::Limits;
use base_refusal::Refusal;
use cabinet::{Answer, Cabinet};

// The sheets of all cards in card order, joined at the front of a buffer of 65,536 bytes: how many bytes they are.
fn join(c: Cabinet, cards: u32, buffer: &mut [u8]) -> usize
    requires { (valid limits16 (view c) ≡ true) × (cards ≡ c.core.head.cards) × (length buffer.old ≡ 65536) }
    ensures { (result ≤ 65536) × (take result buffer.new ≡ joined_sheets formats limits16 (view c)) }
{
    let mut at: usize = 0;
    for card in 0..cards {
        let a = c.sheet(card, &mut buffer[at..]);
        at += a.reply.unwrap_or(0);
    }
    at
}

// Restart of a cabinet that passes 28. After a refused restart the caller goes on with the cabinet it has.
fn restart_valid(c: Cabinet) -> Answer<()>
    requires { valid limits16 (view c) ≡ true }
    ensures { FromOwnSheets c (reply_of result.reply) result.cabinet }
{
    let mut buffer = [0u8; Limits::LONGEST];
    let n = join(c, c.core.head.cards, &mut buffer);
    let mut a = cabinet_restart::restart(&buffer[..n]);
    if a.reply.is_err() {
        a.cabinet = c;
    }
    a
}

// Restart, from the sheets of all cards as this cabinet writes them; a refusal hands back the cabinet as it was.
pub fn restart(c: Cabinet) -> Answer<()>
    ensures { FromOwnSheets c (reply_of result.reply) result.cabinet }
{
    if cabinet_valid::cabinet_valid(&c.entries, &c.changes, c.core) {
        return restart_valid(c);
    }
    Answer {
        cabinet: c,
        reply: Err(Refusal::BadCabinet),
    }
}
