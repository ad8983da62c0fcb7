// The refusals of document 01, by name; what each is told by, a row of its two tables; and an answer that is acceptance or a refusal.
#![tactic(auto)]

ghost use Rattle.std.specs.Prelude.{◌≡◌};
ghost use Rattle.base_refusal.specs.Number.{number_of, told_of};
ghost use Rattle.base_refusal.specs.Reply.{verdict_of};

#[derive(Clone, Copy)]
pub enum Refusal {
    // refused for what was handed in
    CardCount,
    NoSuchCard,
    BothSetsEmpty,
    TooShort,
    BadLine,
    BadCheck,
    BadHeader,
    EndOrMore,
    BadFrame,
    TwoVectors,
    SessionsApart,
    TooLong,
    // refused for where the cabinet stands
    WrongPhase,
    // the lowest card that is barred
    Barred(u32),
    NoSlot,
    InHandFull,
    LimitReached,
    NotAwaited,
    AlreadyDecided,
    StoreOutside,
    BadCabinet,
    NotDecided,
    AlreadyRolled,
    // document 02, wish 5
    WriteRunning,
    EndOutside,
    WriteUnreported,
}

// What is said of a line, a sheet or a read-out, and the answer of a call that answers nothing but that it was accepted.
pub type Reply = Result<(), Refusal>;

// Acceptance or the refusal alone, of an answer that hands something over with acceptance.
pub fn verdict_of<T: Drop>(answer: Result<T, Refusal>) -> Reply
    ensures { result ≡ verdict_of answer }
{
    match answer {
        Ok(_) => Ok(()),
        Err(r) => Err(r),
    }
}

// What a refusal is told by: "its number (21 also its card)".
#[derive(Clone, Copy)]
pub enum Told {
    Alone(u32),
    Card(u32, u32),
}

// The row of a refusal in document 01's tables.
pub fn tell(r: Refusal) -> Told
    ensures { result ≡ told_of r }
{
    match r {
        Refusal::CardCount => Told::Alone(1),
        Refusal::NoSuchCard => Told::Alone(2),
        Refusal::BothSetsEmpty => Told::Alone(3),
        Refusal::TooShort => Told::Alone(4),
        Refusal::BadLine => Told::Alone(5),
        Refusal::BadCheck => Told::Alone(6),
        Refusal::BadHeader => Told::Alone(7),
        Refusal::EndOrMore => Told::Alone(8),
        Refusal::BadFrame => Told::Alone(9),
        Refusal::TwoVectors => Told::Alone(10),
        Refusal::SessionsApart => Told::Alone(11),
        Refusal::TooLong => Told::Alone(12),
        Refusal::WrongPhase => Told::Alone(20),
        Refusal::Barred(card) => Told::Card(21, card),
        Refusal::NoSlot => Told::Alone(22),
        Refusal::InHandFull => Told::Alone(23),
        Refusal::LimitReached => Told::Alone(24),
        Refusal::NotAwaited => Told::Alone(25),
        Refusal::AlreadyDecided => Told::Alone(26),
        Refusal::StoreOutside => Told::Alone(27),
        Refusal::BadCabinet => Told::Alone(28),
        Refusal::NotDecided => Told::Alone(29),
        Refusal::AlreadyRolled => Told::Alone(30),
        Refusal::WriteRunning => Told::Alone(31),
        Refusal::EndOutside => Told::Alone(32),
        Refusal::WriteUnreported => Told::Alone(33),
    }
}

// Document 01's number of a refusal.
impl From<Refusal> for u32 {
    ghost from_gives = { λ r n. n ≡ number_of r };

    fn from(r: Refusal) -> u32 {
        match tell(r) {
            Told::Alone(n) | Told::Card(n, _) => n,
        }
    }
}
