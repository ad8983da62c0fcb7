// Text into a lent buffer, cut off where the buffer ends. What is to be whole is counted first.
#![tactic(auto)]

ghost use Rattle.std.specs.Prelude.{◌-◌, ◌≤◌, min, ◌≡◌, length, take};
ghost use Rattle.std.proofs.lemmas.List.Edits.{sets};
ghost use Rattle.base_text.specs.declared.Progress.TheVariants.{Next};
ghost use Rattle.base_text.specs.Put.{counted_on, Put, fitting_of, count_of};

// How far a text is written; or counted, where nothing is to be written; or that the buffer is too short, or the count for 64 bits.
#[derive(Clone, Copy)]
pub enum Progress {
    Next(usize),
    Counting(usize),
    TooShort,
}

// Stores the first bytes of a text. Byte by byte: `copy_from_slice` asks for `memmove`, and so more of what the archive is linked to.
fn fill(b: &mut [u8], at: usize, text: &[u8], count: usize)
    requires { (count ≤ length b.old - at) × (count ≤ length text.now) }
    ensures { b.new ≡ sets b.old at (take count text.now) }
{
    for i in 0..count {
        b[at + i] = text[i];
    }
}

// The lesser of two numbers.
pub fn least(a: usize, b: usize) -> usize
    ensures { result ≡ min a b }
{
    a.min(b)
}

// Writes a text from a place on.
fn put_at(b: &mut [u8], at: usize, text: &[u8]) -> Progress
    ensures { Put b.old (Next at) text.now result b.new }
{
    let room = b.len().saturating_sub(at);
    let count = text.len();
    if room < count {
        fill(b, at, text, room);
        return Progress::TooShort;
    }
    fill(b, at, text, count);
    Progress::Next(at + count)
}

// So many bytes more are counted.
fn counted_on(n: usize, more: usize) -> Progress
    ensures { result ≡ counted_on n more }
{
    match n.checked_add(more) {
        Some(count) => Progress::Counting(count),
        None => Progress::TooShort,
    }
}

// Writes a text after what is written already, or counts it.
pub fn put(b: &mut [u8], w: Progress, text: &[u8]) -> Progress
    ensures { Put b.old w text.now result b.new }
{
    match w {
        Progress::Next(at) => put_at(b, at, text),
        Progress::Counting(n) => counted_on(n, text.len()),
        Progress::TooShort => Progress::TooShort,
    }
}

// Where a text goes that was counted: where it was to go, if a buffer of so many bytes has room for all of it.
pub fn fitting(size: usize, w: Progress, counted: Progress) -> Progress
    ensures { result ≡ fitting_of size w counted }
{
    match w {
        Progress::Next(at) => match counted {
            Progress::Counting(n) if n <= size.saturating_sub(at) => w,
            _ => Progress::TooShort,
        },
        Progress::Counting(_) => w,
        Progress::TooShort => Progress::TooShort,
    }
}

// The count of bytes written, or the greatest number where they are not.
pub fn count_of(w: Progress) -> usize
    ensures { result ≡ count_of w }
{
    match w {
        Progress::Next(n) => n,
        Progress::Counting(_) | Progress::TooShort => usize::MAX,
    }
}
