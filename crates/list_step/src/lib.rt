// A line of a list, done where its answer has room.
#![tactic(auto)]

ghost use Rattle.base_text.specs.declared.Progress.TheVariants.{Next};
ghost use Rattle.list_parse.specs.Lines.{parse_line};
ghost use Rattle.list_texts.specs.Executed.{Executed};

use base_text::Progress;
use list_commands::Command;
use list_results::{Replay, Stepped};

// What a line says is done, but nothing where the answer has no room.
pub fn execute(r: Replay, said: Command, b: &mut [u8], w: Progress) -> Stepped
    ensures { Executed said r b.old w result.replay result.written b.new }
{
    let s = list_execute::done(r, said, b, w);
    match s.written {
        Progress::Next(_) => s,
        Progress::Counting(_) => s,
        Progress::TooShort => Stepped {
            replay: r,
            written: s.written,
        },
    }
}

// One line, its byte 10 left out: the answer goes to the front of the buffer, and nothing is done where it has no room there.
pub fn step(r: Replay, line: &[u8], out: &mut [u8]) -> Stepped
    ensures { Executed (parse_line line.now) r out.old (Next 0) result.replay result.written out.new }
{
    let said = list_parse::parse(line);
    execute(r, said, out, Progress::Next(0))
}
