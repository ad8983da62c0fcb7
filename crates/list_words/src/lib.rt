// The numbers of a line, each after one space.
#![tactic(auto)]

ghost use Rattle.std.specs.Prelude.{◌≡◌};
ghost use Rattle.list_words.specs.Line.{next_figure, after_three, after_two, after_one, figures_at};

// Something else stands in a line where its end or a space and a number were to stand, or a fourth number.
#[derive(Clone, Copy)]
pub struct Malformed;

// The numbers after the first word of a line.
#[derive(Clone, Copy)]
pub enum Figures {
    Zero,
    One(u32),
    Two(u32, u32),
    Three(u32, u32, u32),
}

// A space and a number at a place of a line, with the place after it; or none, at its end.
fn next_figure(s: &[u8], at: usize) -> Result<Option<(u32, usize)>, Malformed>
    ensures { result ≡ next_figure s.now at }
{
    if s.len() <= at {
        return Ok(None);
    }
    if s[at] != 32 {
        return Err(Malformed);
    }
    base_reading::read(s, at + 1).map(Some).ok_or(Malformed)
}

// After three numbers a line ends.
fn after_three(s: &[u8], at: usize, a: u32, b: u32, c: u32) -> Result<Figures, Malformed>
    ensures { result ≡ after_three s.now at a b c }
{
    match next_figure(s, at)? {
        None => Ok(Figures::Three(a, b, c)),
        Some(_) => Err(Malformed),
    }
}

fn after_two(s: &[u8], at: usize, a: u32, b: u32) -> Result<Figures, Malformed>
    ensures { result ≡ after_two s.now at a b }
{
    match next_figure(s, at)? {
        None => Ok(Figures::Two(a, b)),
        Some((c, next)) => after_three(s, next, a, b, c),
    }
}

fn after_one(s: &[u8], at: usize, a: u32) -> Result<Figures, Malformed>
    ensures { result ≡ after_one s.now at a }
{
    match next_figure(s, at)? {
        None => Ok(Figures::One(a)),
        Some((b, next)) => after_two(s, next, a, b),
    }
}

// The numbers of a line from a place on.
pub fn figures_at(s: &[u8], at: usize) -> Result<Figures, Malformed>
    ensures { result ≡ figures_at s.now at }
{
    match next_figure(s, at)? {
        None => Ok(Figures::Zero),
        Some((a, next)) => after_one(s, next, a),
    }
}
