// What the lines of a list of calls say, and where they begin.
#![tactic(auto)]

ghost use Rattle.std.specs.Prelude.{◌≡◌};
ghost use Rattle.list_parse.specs.Lines.{parse_line, token_at};

use list_commands::Command;

// What a line says, its byte 10 left out.
pub fn parse(line: &[u8]) -> Command
    ensures { result ≡ parse_line line.now }
{
    if 128 < line.len() {
        return Command::Unreadable;
    }
    let end = base_search::find(line, 0, 32);
    let f = list_words::figures_at(line, end);
    list_names::say_with(&line[0..end], f)
}

// What stands at a place of a text.
pub fn line_at(s: &[u8], from: usize) -> Option<(Command, usize)>
    ensures { result ≡ token_at s.now from }
{
    if s.len() <= from {
        return None;
    }
    let end = base_search::find(s, from, 10);
    let said = parse(&s[from..end]);
    if end < s.len() {
        Some((said, end + 1))
    } else {
        Some((said, end))
    }
}
