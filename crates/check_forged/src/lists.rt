// A list of calls on a cabinet at hand, each answer printed.
use cabinet::Cabinet;
use list_results::Replay;

// Does a line and prints its answer.
fn told(rt: &(impl Print + Eprint), r: Replay, line: &str) -> Replay {
    let mut out = [0u8; 4096];
    let s = list_step::step(r, line.as_bytes(), &mut out);
    if let Some(answer) = out.get(..base_text::count_of(s.written)) {
        let _ = base_streams::print(rt, answer);
    }
    s.replay
}

// Does the lines of a list.
pub fn run(rt: &(impl Print + Eprint), cabinet: Cabinet, list: &str) -> Cabinet {
    let mut r = Replay {
        cabinet,
        begun: true,
    };
    for line in list.lines() {
        r = told(rt, r, line);
    }
    r.cabinet
}
