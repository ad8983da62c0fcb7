// The changes lost: one merge over the cards' frames above the line and the changes that a loss ended.
#![tactic(auto)]

ghost use Rattle.std.specs.Prelude.{◌≡◌, set};
ghost use Rattle.base_merge.specs.Merge.{ends_of, Rises};
ghost use Rattle.cabinet_listing.specs.Lost.{Listed, number_above, least_ended, next_lost, lost_by};

use base_limits::Limits;

// A number above k, and 0 for another.
fn number_above(x: u32, k: u32) -> u32
    ensures { result ≡ number_above x k }
{
    if k < x { x } else { 0 }
}

// The least number above k of the changes that a loss ended with a written share untaken, and 0 where there is none.
fn next_ended(ended: [u32; Limits::SLOTS], k: u32) -> u32
    ensures { result ≡ least_ended ended k }
{
    let mut best: u32 = 0;
    for p in 0..Limits::SLOTS {
        best = base_merge::lesser(best, number_above(ended[p], k));
    }
    best
}

// The number of the change lost that comes next, where those up to k are met, and 0 where there is none.
fn next_lost(heads: [u32; Limits::CARDS], ended: [u32; Limits::SLOTS], k: u32) -> u32
    ensures { result ≡ next_lost heads ended k }
{
    let head = base_merge::least(heads);
    let e = next_ended(ended, k);
    base_merge::lesser(head, e)
}

// The number x at place n, where there is such a place.
fn put(list: &mut [u32], n: usize, x: u32)
    ensures { list.new ≡ set list.old n x }
{
    if n < list.len() {
        list[n] = x;
    }
}

// The numbers of the changes lost, in rising order, as far as the list has places; places beyond them keep what they held. It answers how many are lost.
pub fn list_lost<'a, 'b>(
    list: &'a mut [u32],
    changes: &'b [u32; Limits::FRAMES],
    line: [u32; Limits::CARDS],
    reached: [u32; Limits::CARDS],
    ended: [u32; Limits::SLOTS],
    cards: u32,
) -> usize
    ensures { Rises changes.now line (ends_of reached cards) → Listed (lost_by changes.now line reached ended cards) list.old list.new result }
{
    let ends = base_merge::ends_of(reached, cards);
    let mut passed = line;
    let mut heads = base_merge::heads(changes, passed, ends);
    let mut n: usize = 0;
    let mut k: u32 = 0;
    let mut x = next_lost(heads, ended, 0);
    // a while: it ends where no number is left, and not after a count
    while k < x {
        put(list, n, x);
        n += 1;
        k = x;
        // by way of names: a call's array laid right over one that is held gets no proof
        let p = base_merge::past(passed, ends, heads, k);
        passed = p;
        let h = base_merge::heads(changes, passed, ends);
        heads = h;
        x = next_lost(heads, ended, k);
    }
    n
}
