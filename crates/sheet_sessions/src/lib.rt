// The sessions of a read-out's sheets: the lowest, and refusal 11.
#![tactic(auto)]

ghost use Rattle.std.specs.Prelude.{◌≡◌, ◌+◌, ◌&&◌, ◌||◌, get_or, ltb};
ghost use Rattle.sheet_sessions.specs.Sessions.{lowest_to, apart};

use base_limits::Limits;

// The lowest of the sessions from the first to number `last`; those beyond the sixteenth are 0.
pub fn lowest(sessions: [u32; Limits::CARDS], last: u32) -> u32
    ensures { result ≡ lowest_to (λ i. get_or sessions i 0) last }
{
    if Limits::CARDS_U32 <= last {
        return 0;
    }
    let mut low = sessions[0];
    for i in 0..last as usize {
        low = low.min(sessions[i + 1]);
    }
    low
}

fn ahead(session: u32, count: u32, low: u32) -> bool
    ensures { result ≡ (ltb (low + 1) session || (ltb low session && ltb 0 count)) }
{
    low < session && (session - low != 1 || 0 < count)
}

// 11: "sessions more than one apart, or a sheet one ahead has frames"; a session beyond the sixteenth is 0, and never ahead.
pub fn sessions_apart(
    sessions: [u32; Limits::CARDS],
    counts: [u32; Limits::CARDS],
    low: u32,
    n: u32,
) -> bool
    ensures { result ≡ apart (λ c. get_or sessions c 0) (λ c. get_or counts c 0) low n }
{
    for i in 0..n.min(Limits::CARDS_U32) as usize {
        if ahead(sessions[i], counts[i], low) {
            return true;
        }
    }
    false
}
