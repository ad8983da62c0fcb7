// Numbers written as decimal text, into a lent buffer at a place.
#![tactic(auto)]

ghost use Rattle.std.specs.Prelude.{◌+◌, ◌≤◌, ◌≡◌, length};
ghost use Rattle.std.proofs.lemmas.List.Edits.{sets};
ghost use Rattle.base_decimal.specs.Digits.{decimal, lowest};
ghost use Rattle.base_decimal.specs.Answers.{Wrote};

// How many digits the number has.
pub fn width(n: u32) -> usize
    ensures { result ≡ length (decimal n) }
{
    let mut count: usize = 1;
    let mut left = n;
    while 10 <= left {
        left = left / 10;
        count += 1;
    }
    count
}

// Writes the count lowest digits of the number, the last one first.
fn fill(b: &mut [u8], at: usize, count: usize, n: u32)
    requires { at + count ≤ length b.old }
    ensures { b.new ≡ sets b.old at (lowest count n) }
{
    let mut left = n;
    for i in (at..at + count).rev() {
        b[i] = 48 + (left % 10) as u8;
        left = left / 10;
    }
}

// Writes the number from the place `at` on.
pub fn write(b: &mut [u8], at: usize, n: u32) -> Option<usize>
    ensures { Wrote b.old at n result b.new }
{
    let count = width(n);
    if b.len() < at {
        return None;
    }
    if b.len() - at < count {
        return None;
    }
    fill(b, at, count, n);
    Some(at + count)
}
