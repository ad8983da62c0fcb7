// Numbers in upper-case digits, read and written; the two sums of a line's check, and what stands where a line is due.
#![tactic(auto)]

ghost use Rattle.std.specs.Prelude.{◌≡◌, ◌+◌, ◌≤◌, ◌<◌, length, take, drop};
ghost use Rattle.std.proofs.lemmas.List.Edits.{sets};
ghost use Rattle.sheet_digits.specs.Digits.{is_digit, digit, digit_value, digits, number};

// The two running sums of a line's check.
#[derive(Clone, Copy)]
pub struct Sums {
    pub first: u8,
    pub second: u8,
}

// Whether a byte is an upper-case digit.
pub fn is_digit(b: u8) -> bool
    ensures { result ≡ is_digit b }
{
    b.is_ascii_digit() || (b'A'..=b'F').contains(&b)
}

// The byte of a digit.
fn digit_of(v: u32) -> u8
    requires { v < 16 }
    ensures { result ≡ digit v }
{
    if v < 10 { 48 + v as u8 } else { 55 + v as u8 }
}

// The value of a digit's byte, and 0 of any other byte.
fn value_of(b: u8) -> u32
    ensures value { result ≡ digit_value b }
    ensures small { result < 16 }
{
    match b {
        b'0'..=b'9' => b as u32 - 48,
        b'A'..=b'F' => b as u32 - 55,
        _ => 0,
    }
}

// The number that the digits from `at` on give.
pub fn number_at(s: &[u8], at: usize, width: usize) -> u32
    requires { (at + width ≤ length s.now) × (width ≤ 8) }
    ensures { result ≡ number (take width (drop at s.now)) }
{
    let mut n: u32 = 0;
    for i in 0..width {
        n = n * 16 + value_of(s[at + i]);
    }
    n
}

// The same, of the 4 digits of most state numbers without a count.
// Stays beside `number_at`, for speed: the width is known only in the run, so that no const parameter has it.
pub fn state_at(s: &[u8], at: usize, width: usize) -> u32
    requires { (at + width ≤ length s.now) × (width ≤ 8) }
    ensures { result ≡ number (take width (drop at s.now)) }
{
    if width == 4 {
        number_at(s, at, 4)
    } else {
        number_at(s, at, width)
    }
}

// Writes a number at `at`, in as many digits as `width`.
pub fn put_number(b: &mut [u8], at: usize, width: usize, n: u32)
    requires { at + width ≤ length b.old }
    ensures { b.new ≡ sets b.old at (digits width n) }
{
    let mut rest = n;
    for k in (0..width).rev() {
        b[at + k] = digit_of(rest % 16);
        rest /= 16;
    }
}

// The same, in the 4 digits of most state numbers without a count.
// Stays beside `put_number`, for speed: the width is known only in the run, so that no const parameter has it.
pub fn put_state(b: &mut [u8], at: usize, width: usize, n: u32)
    requires { at + width ≤ length b.old }
    ensures { b.new ≡ sets b.old at (digits width n) }
{
    if width == 4 {
        put_number(b, at, 4, n);
    } else {
        put_number(b, at, width, n);
    }
}
