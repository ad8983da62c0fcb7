// Reads a list of calls from standard input and prints the answers, a line at a time: lists of any length in bounded memory.
// It ends where a read or a write fails, and a line that was cut off there is no call.
#![tactic(auto)]

ghost use Rattle.std.specs.Prelude.{◌≤◌};

use base_text::Progress;
use list_results::Replay;
use std::io;

// The first bytes of a line; 129 of them tell that it is too long.
#[derive(Drop)]
struct Line {
    bytes: [u8; 129],
    count: usize,
    ghost fits: { count ≤ 129 },
}

impl Line {
    fn empty() -> Line {
        Line {
            bytes: [0u8; 129],
            count: 0,
        }
    }

    // Bytes more, as far as there is room.
    fn keep(&mut self, more: &[u8]) {
        let room = &mut self.bytes[self.count..];
        let n = more.len().min(room.len());
        room[..n].copy_from_slice(&more[..n]);
        self.count += n;
    }

    fn clear(&mut self) {
        self.count = 0;
    }

    fn text(&self) -> &[u8] {
        &self.bytes[..self.count]
    }
}

// The replay, and the line that has not ended yet.
#[derive(Drop)]
struct Reader {
    replay: Replay,
    line: Line,
}

// Prints the answer to a line; nothing where that failed.
fn print(rt: &(impl Print + Eprint), out: &[u8], w: Progress) -> Option<()> {
    let answer = out.get(..base_text::count_of(w))?;
    base_streams::print(rt, answer).ok()
}

// Does the lines of a part of the input, each where it ends: one whose answer has no room changes nothing. The cabinet goes by
// value, so the step stands in the loop itself.
fn feed(rt: &(impl Print + Eprint), f: Reader, part: &[u8], out: &mut [u8]) -> Option<Reader> {
    let mut replay = f.replay;
    let mut line = f.line;
    for piece in part.split_inclusive(|b| *b == b'\n') {
        let [text @ .., b'\n'] = piece else {
            line.keep(piece);
            break;
        };
        line.keep(text);
        let said = list_parse::parse(line.text());
        let s = list_execute::done(replay, said, out, Progress::Next(0));
        replay = s.replay;
        print(rt, out, s.written)?;
        line.clear();
    }
    Some(Reader { replay, line })
}

// A last line with no byte 10 counts as a line.
fn finish(rt: &(impl Print + Eprint), f: Reader) -> Option<()> {
    let text = f.line.text();
    if !text.is_empty() {
        let mut out = [0u8; 65536];
        let said = list_parse::parse(text);
        let s = list_execute::done(f.replay, said, &mut out, Progress::Next(0));
        print(rt, &out, s.written)?;
    }
    Some(())
}

// Does the input part after part, to its end; nothing where a read or a write failed.
fn run(rt: &(impl io::Input + Print + Eprint)) -> Option<()> {
    let mut f = Reader {
        replay: list_results::begin(),
        line: Line::empty(),
    };
    let mut part = [0u8; 4096];
    let mut out = [0u8; 65536];
    for _ in 0..u64::MAX {
        let n = base_streams::read(rt, &mut part).ok()?;
        if n == 0 {
            break;
        }
        f = feed(rt, f, &part[..n], &mut out)?;
    }
    finish(rt, f)
}

fn main(rt: HostRuntime) {
    let _ = run(&rt);
}
