// A read-out by value, and what a refusal hands back.
#![tactic(auto)]

ghost use Rattle.std.specs.Prelude.{◌≡◌, [], drop, Err};
ghost use Rattle.sheet_pages.specs.Pages.{ended};
ghost use Rattle.sheet_pages.specs.Walk.{answered, no_readout};

use base_limits::Limits;
use base_refusal::{Refusal, Reply};

// A read-out: for each card its session, base and number of frames, and the frames of all cards. The frame of a
// card's state stands at card * 48 + state % 48, with 16 entries for each.
#[derive(Clone, Copy)]
pub struct Readout {
    pub changes: [u32; Limits::FRAMES],
    pub entries: [u32; Limits::ENTRIES],
    pub sessions: [u32; Limits::CARDS],
    pub bases: [u32; Limits::CARDS],
    pub counts: [u32; Limits::CARDS],
    pub cards: u32,
}

// What was read, and the verdict.
// Stays two fields, and no `Result`: a refusal too hands back a read-out, the one of zeros.
#[derive(Drop)]
pub struct Reading {
    pub readout: Readout,
    pub verdict: Reply,
}

// The read-out of zeros.
pub fn no_readout() -> Readout
    ensures { result ≡ no_readout }
{
    let zeros = [0u32; Limits::CARDS];
    Readout {
        changes: [0u32; Limits::FRAMES],
        entries: [0u32; Limits::ENTRIES],
        sessions: zeros,
        bases: zeros,
        counts: zeros,
        cards: 0,
    }
}

// A refusal hands back the read-out of zeros.
pub fn nothing_read(x: Refusal) -> Reading
    ensures { result ≡ answered (Err x) [] }
{
    Reading {
        readout: no_readout(),
        verdict: Err(x),
    }
}

// The verdict behind the last sheet: refused where the input goes on.
pub fn end_at(s: &[u8], at: usize) -> Reply
    ensures { result ≡ (ended (drop at s.now)).verdict }
{
    if at < s.len() {
        Err(Refusal::EndOrMore)
    } else {
        Ok(())
    }
}
