// The reader of a joined read-out: its lines, and then the sheets beside each other.
#![tactic(auto)]

ghost use Rattle.std.specs.Prelude.{◌≡◌, ◌≤◌};
ghost use Rattle.sheet_pages.specs.Ring.{pages_of};
ghost use Rattle.sheet_vectors.specs.Heads.{Orderly, lists_read};
ghost use Rattle.sheet_readout.specs.Joint.{joint_verdict, judged, given, readout_of};
ghost use Rattle.sheet_readout.specs.Laid.{Laid};

use base_limits::Limits;
use base_refusal::{Refusal, Reply};
use sheet_pages::{Reading, Readout};

// The verdict on the sheets beside each other.
fn joint_verdict<'a>(
    changes: &'a [u32; Limits::FRAMES],
    entries: &'a [u32; Limits::ENTRIES],
    sessions: [u32; Limits::CARDS],
    bases: [u32; Limits::CARDS],
    counts: [u32; Limits::CARDS],
    n: u32,
) -> Reply
    requires { (1 ≤ n) × (n ≤ 16) × Orderly changes.now bases counts n }
    ensures { result ≡ joint_verdict (pages_of (lists_read changes.now entries.now sessions bases counts n)) }
{
    let low = sheet_sessions::lowest(sessions, n - 1);
    if sheet_sessions::sessions_apart(sessions, counts, low, n) {
        return Err(Refusal::SessionsApart);
    }
    if low == Limits::GREATEST_NUMBER {
        return Err(Refusal::LimitReached);
    }
    if sheet_vectors::two_vectors(changes, entries, bases, counts, n) {
        return Err(Refusal::TwoVectors);
    }
    Ok(())
}

// A read-out whose lines are accepted, by the joint verdict.
fn judged_jointly(r: Readout) -> Reading
    requires { Laid r }
    ensures { result ≡ given (judged (joint_verdict (pages_of r)) (pages_of r)) }
{
    match joint_verdict(
        &r.changes, &r.entries, r.sessions, r.bases, r.counts, r.cards,
    ) {
        Ok(()) => Reading {
            readout: r,
            verdict: Ok(()),
        },
        Err(x) => sheet_pages::nothing_read(x),
    }
}

// Reads the sheets of all cards, joined in card order.
pub fn read_readout(s: &[u8]) -> Reading
    ensures { result ≡ readout_of s.now }
{
    if Limits::LONGEST < s.len() {
        return sheet_pages::nothing_read(Refusal::TooLong);
    }
    let read = sheet_walk::read_sheets(s, 0, true);
    match read.verdict {
        Ok(()) => judged_jointly(read.readout),
        Err(x) => sheet_pages::nothing_read(x),
    }
}
