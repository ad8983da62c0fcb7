// The shape of a line and the check over it: judged, and written at a line's end.
#![tactic(auto)]

ghost use Rattle.std.specs.Prelude.{◌≡◌, ◌+◌, ◌≤◌, [], ◌∷◌, ◌++◌, length, take, drop};
ghost use Rattle.std.proofs.lemmas.List.Edits.{sets};
ghost use Rattle.sheet_digits.specs.Digits.{all_digits, digits};
ghost use Rattle.sheet_digits.specs.Line.{summed, check_of, checked, shape_of};

use base_refusal::{Refusal, Reply};
use sheet_digits::Sums;

// Whether the n bytes from `at` on are digits.
fn all_digits(s: &[u8], at: usize, n: usize) -> bool
    requires { at + n ≤ length s.now }
    ensures { result ≡ all_digits (take n (drop at s.now)) }
{
    for i in 0..n {
        if !sheet_digits::is_digit(s[at + i]) {
            return false;
        }
    }
    true
}

// The two running sums over n bytes from `at` on.
fn sums_over(s: &[u8], at: usize, n: usize, start: Sums) -> Sums
    requires { at + n ≤ length s.now }
    ensures { result ≡ summed start (take n (drop at s.now)) }
{
    let mut first = start.first;
    let mut second = start.second;
    for i in 0..n {
        first = std::num::wrapping_add_u8(first, s[at + i]);
        second = std::num::wrapping_add_u8(second, first);
    }
    Sums { first, second }
}

// The check as a number.
fn check_number(s: Sums) -> u32
    ensures { result ≡ check_of s }
{
    s.second as u32 * 256 + s.first as u32
}

// The byte that a line which is read ends in.
const LINE_END: u8 = 10;

// What stands at `at`, where a line of n digits before its check is due.
pub fn shape_at(s: &[u8], at: usize, n: usize) -> Reply
    ensures { result ≡ shape_of n (drop at s.now) }
{
    if s.len() <= at {
        return Err(Refusal::EndOrMore);
    }
    let left = s.len() - at;
    if left < 5 || left - 5 < n || !all_digits(s, at, n + 4) || s[at + n + 4] != LINE_END {
        return Err(Refusal::BadLine);
    }
    Ok(())
}

// Whether the check after n digits from `at` on is the check over them.
pub fn check_at(s: &[u8], at: usize, n: usize, start: Sums) -> bool
    requires { at + n + 4 ≤ length s.now }
    ensures { result ≡ checked start n (drop at s.now) }
{
    let sums = sums_over(s, at, n, start);
    let told = sheet_digits::number_at(s, at + n, 4);
    told == check_number(sums)
}

// Ends the line whose n digits from `at` on are written: the check over them, and byte 10.
pub fn end_line(b: &mut [u8], at: usize, n: usize, start: Sums)
    requires { at + n + 5 ≤ length b.old }
    ensures { b.new ≡ sets b.old (at + n) (digits 4 (check_of (summed start (take n (drop at b.old)))) ++ (10 ∷ [])) }
{
    let sums = sums_over(b, at, n, start);
    sheet_digits::put_number(b, at + n, 4, check_number(sums));
    b[at + n + 4] = 10;
}
