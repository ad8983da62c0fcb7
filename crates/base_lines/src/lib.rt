// Numbers and lines of text into a lent buffer, cut off where the buffer ends.
#![tactic(auto)]

ghost use Rattle.std.specs.Prelude.{cond, [], ltb};
ghost use Rattle.base_decimal.specs.Digits.{decimal};
ghost use Rattle.base_text.specs.Put.{Put};
ghost use Rattle.base_lines.specs.Lines.{spaced, text_line};

use base_text::Progress;

// Writes a number.
pub fn put_number(b: &mut [u8], w: Progress, n: u32) -> Progress
    ensures { Put b.old w (decimal n) result b.new }
{
    let mut digits = [0u8; 10];
    let count = base_decimal::width(n);
    base_decimal::write(&mut digits, 0, n);
    base_text::put(b, w, &digits[0..count])
}

// Writes numbers, each after a space.
pub fn put_numbers(b: &mut [u8], w: Progress, numbers: &[u32]) -> Progress
    ensures { Put b.old w (spaced numbers.now) result b.new }
{
    let mut at = w;
    for n in numbers {
        at = base_text::put(b, at, b" ");
        at = put_number(b, at, *n);
    }
    at
}

// Writes a line: a word, and numbers after it.
pub fn put_line(b: &mut [u8], w: Progress, word: &[u8], numbers: &[u32]) -> Progress
    ensures { Put b.old w (text_line word.now numbers.now) result b.new }
{
    let w = base_text::put(b, w, word);
    let w = put_numbers(b, w, numbers);
    base_text::put(b, w, b"\n")
}

// Writes a line of numbers alone: a card's, and others after it.
pub fn put_row(b: &mut [u8], w: Progress, card: u32, numbers: &[u32]) -> Progress
    ensures { Put b.old w (text_line (decimal card) numbers.now) result b.new }
{
    let w = put_number(b, w, card);
    let w = put_numbers(b, w, numbers);
    base_text::put(b, w, b"\n")
}

// The line of a card that the cabinet has.
pub fn put_card(b: &mut [u8], w: Progress, cards: u32, card: u32, numbers: &[u32]) -> Progress
    ensures { Put b.old w (cond (ltb card cards) (text_line (decimal card) numbers.now) []) result b.new }
{
    if card < cards {
        return put_row(b, w, card, numbers);
    }
    w
}
