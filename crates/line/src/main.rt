// The line program: a read-out on standard input; card, stored and line of each card and the session after recovery on
// standard output, or the refusal. Where the input can't be read to its end there is no answer.
#![tactic(auto)]

use base_limits::Limits;

fn answer(rt: &(impl Print + Eprint), input: &[u8]) {
    let t = cabinet_report::line_text(input);
    if let Some(text) = t.bytes.get(..t.length) {
        let _ = base_streams::print(rt, text);
    }
}

// One byte more than a read-out may have, so that a longer input is refused.
fn main(rt: HostRuntime) {
    let mut space = [0u8; Limits::LONGEST + 1];
    if let (n, Ok(())) = base_streams::read_full(&rt, &mut space) {
        answer(&rt, &space[..n]);
    }
}
