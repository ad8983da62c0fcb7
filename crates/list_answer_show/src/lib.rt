// How the answer to a look at the cabinet is written.
#![tactic(auto)]

ghost use Rattle.std.specs.Prelude.{cond, [], ltb};
ghost use Rattle.base_text.specs.Put.{Put};
ghost use Rattle.list_answer_show.specs.Show.{card_text, cards_text, show_text};

use base_limits::Limits;
use base_text::Progress;
use cabinet_layout::Head;

// The line of a card: its numbers, and the state up to which its write runs, held as the state plus one.
fn put_row(b: &mut [u8], w: Progress, card: u32, numbers: &[u32], writing: u32) -> Progress
    ensures { Put b.old w (card_text card numbers.now writing) result b.new }
{
    if writing == 0 {
        return base_lines::put_row(b, w, card, numbers);
    }
    let w = base_lines::put_number(b, w, card);
    let w = base_lines::put_numbers(b, w, numbers);
    base_lines::put_line(b, w, b" writing", &[writing - 1])
}

// The line of a card that the cabinet has.
fn put_card(
    b: &mut [u8],
    w: Progress,
    cards: u32,
    card: u32,
    numbers: &[u32],
    writing: u32,
) -> Progress
    ensures { Put b.old w (cond (ltb card cards) (card_text card numbers.now writing) []) result b.new }
{
    if card < cards {
        return put_row(b, w, card, numbers, writing);
    }
    w
}

// The lines of the cards. Five arrays go side by side, beside the card's number: a chain of zips is no plainer than the index.
fn put_cards(
    b: &mut [u8],
    w: Progress,
    cards: u32,
    base: [u32; Limits::CARDS],
    stored: [u32; Limits::CARDS],
    held: [u32; Limits::CARDS],
    reached: [u32; Limits::CARDS],
    writing: [u32; Limits::CARDS],
) -> Progress
    ensures { Put b.old w (cards_text cards base stored held reached writing) result b.new }
{
    let mut at = w;
    for c in 0..Limits::CARDS_U32 {
        let i = c as usize;
        let row = [base[i], stored[i], held[i], reached[i]];
        at = put_card(b, at, cards, c, &row, writing[i]);
    }
    at
}

// What a cabinet is: session, phase, number of cards, and the four numbers of each card with its running write.
pub fn put_show(
    b: &mut [u8],
    w: Progress,
    head: Head,
    base: [u32; Limits::CARDS],
    stored: [u32; Limits::CARDS],
    held: [u32; Limits::CARDS],
    reached: [u32; Limits::CARDS],
    writing: [u32; Limits::CARDS],
) -> Progress
    ensures { Put b.old w (show_text head base stored held reached writing) result b.new }
{
    let w = list_answer_head::put_head(b, w, head);
    put_cards(b, w, head.cards, base, stored, held, reached, writing)
}
