// What the calls are said with: phase, head, slots, vectors and replies; a head, a free slot and a core anew; reading a phase and a number by card.
#![tactic(auto)]

ghost use Rattle.std.specs.Prelude.{◌≡◌};
ghost use Rattle.base_laws.specs.Below.{tabulate};
ghost use Rattle.theory_history.specs.Vector.{no_entries};
ghost use Rattle.theory_protocol.specs.Model.{is_up, is_down, is_rolling, free_slot};
ghost use Rattle.cabinet_layout.specs.Shape.{limits16, phase_of, at, slot_for, vector_for, head_of, in_phase, counted, blank_core};

use base_limits::Limits;
use base_refusal::Refusal;

#[derive(Clone, Copy)]
pub enum Phase {
    Up,
    Down,
    Rolling,
}

// What safe answers of a change.
#[derive(Clone, Copy)]
pub enum Safety {
    Safe,
    Unsafe,
}

// What is small in a cabinet: session, number of cards, the last change number given, phase.
#[derive(Clone, Copy)]
pub struct Head {
    pub session: u32,
    pub cards: u32,
    pub latest: u32,
    pub phase: Phase,
}

// A vector: a dependency for each card, 0 for none and a state's number plus one otherwise.
#[derive(Clone, Copy)]
pub struct Vector {
    pub entries: [u32; Limits::CARDS],
}

// One of the eight slots for open changes. Number 0: free.
#[derive(Clone, Copy)]
pub struct Slot {
    pub vector: [u32; Limits::CARDS],
    pub number: u32,
    pub reads: u16,
    pub writes: u16,
    pub yes: u16,
    pub taken: u16,
}

// A cabinet but for its frames: what 28 looks at, and what a loss and a roll remember.
#[derive(Clone, Copy)]
pub struct Core {
    pub head: Head,
    pub last: [Vector; Limits::CARDS],
    pub pending: [Vector; Limits::CARDS],
    pub slots: [Slot; Limits::SLOTS],
    pub base: [u32; Limits::CARDS],
    pub stored: [u32; Limits::CARDS],
    pub held: [u32; Limits::CARDS],
    pub reached: [u32; Limits::CARDS],
    // while rolling: the line fixed
    pub line: [u32; Limits::CARDS],
    // by slot, the decided changes that a loss ended with a written share untaken
    pub ended: [u32; Limits::SLOTS],
    // while rolling: the cards already rolled
    pub rolled: u16,
    // by card, the write running: 0 for none, and the state up to which it goes plus one otherwise
    pub writing: [u32; Limits::CARDS],
}

// What a call on the core hands back.
#[derive(Drop)]
pub struct CoreAnswer<T> {
    pub core: Core,
    pub reply: Result<T, Refusal>,
}

// A head whose change numbers start at 1.
pub fn head_of(session: u32, cards: u32, phase: Phase) -> Head
    ensures { result ≡ head_of session cards phase }
{
    Head {
        session,
        cards,
        latest: 0,
        phase,
    }
}

pub fn in_phase(head: Head, phase: Phase) -> Head
    ensures { result ≡ in_phase head phase }
{
    Head { phase, ..head }
}

// With k for the last change number given.
pub fn counted(head: Head, k: u32) -> Head
    ensures { result ≡ counted head k }
{
    Head { latest: k, ..head }
}

// A free slot, all zero.
pub fn free_slot() -> Slot
    ensures { result ≡ slot_for free_slot }
{
    Slot {
        vector: [0u32; Limits::CARDS],
        number: 0,
        reads: 0,
        writes: 0,
        yes: 0,
        taken: 0,
    }
}

// "all entries are none"
pub fn no_vectors() -> [Vector; Limits::CARDS]
    ensures { result ≡ tabulate limits16.width (λ c. vector_for no_entries) }
{
    let none = Vector {
        entries: [0u32; Limits::CARDS],
    };
    [none; Limits::CARDS]
}

// All state numbers 0, all entries none, every slot free, no write running.
pub fn blank(head: Head) -> Core
    ensures { result ≡ blank_core head }
{
    let none = [0u32; Limits::CARDS];
    let vectors = no_vectors();
    Core {
        head,
        last: vectors,
        pending: vectors,
        slots: [free_slot(); Limits::SLOTS],
        base: none,
        stored: none,
        held: none,
        reached: none,
        line: none,
        ended: [0u32; Limits::SLOTS],
        rolled: 0,
        writing: none,
    }
}

pub fn is_up(phase: Phase) -> bool
    ensures { result ≡ is_up (phase_of phase) }
{
    matches!(phase, Phase::Up)
}

pub fn is_down(phase: Phase) -> bool
    ensures { result ≡ is_down (phase_of phase) }
{
    matches!(phase, Phase::Down)
}

pub fn is_rolling(phase: Phase) -> bool
    ensures { result ≡ is_rolling (phase_of phase) }
{
    matches!(phase, Phase::Rolling)
}

// The number for card i; 0 for a card above 15.
pub fn at(numbers: [u32; Limits::CARDS], i: u32) -> u32
    ensures { result ≡ at numbers i }
{
    numbers.get(i as usize).copied().unwrap_or(0)
}
