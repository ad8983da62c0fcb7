// The programs' standard input and standard output. A read or a write that fails is said on standard error.
#![tactic(auto)]

ghost use Rattle.std.specs.Prelude.{◌≡◌, length, IfOk};
ghost use Rattle.base_streams.specs.Input.{IsPrefixLen, input_of};

use std::io;
use std::io::Read;

// What the answer of a read says.
fn input_of(got: io::Result<usize>, buf: &[u8]) -> io::Result<usize>
    ensures prefix_len { IfOk result (λ n. IsPrefixLen n buf.now) }
    ensures value { result ≡ input_of got (length buf.now) }
{
    got.map(|n| n.min(buf.len()))
}

// Reads once: no byte where the input has ended.
pub fn read(rt: &(impl io::Input + Eprint), buf: &mut [u8]) -> io::Result<usize>
    ensures { IfOk result (λ n. IsPrefixLen n buf.new) }
{
    let got = rt.reader().read(buf);
    let input = input_of(got, buf);
    input.inspect_err(|_| {
        let _ = rt.eprintln("standard input can't be read");
    })
}

// Reads until the buffer is full, the input ends or a read fails: how many bytes came, and whether a read failed.
pub fn read_full(rt: &(impl io::Input + Eprint), buf: &mut [u8]) -> (usize, io::Result<()>)
    ensures { IsPrefixLen result.0 buf.new }
{
    let mut count = 0;
    // a while: a read answers how many bytes came, so there is no range to go over
    while count < buf.len() {
        match read(rt, &mut buf[count..]) {
            Ok(0) => break,
            Ok(part) => count += part,
            Err(e) => return (count, Err(e)),
        }
    }
    (count, Ok(()))
}

// Writes bytes.
pub fn print(rt: &(impl Print + Eprint), bytes: &[u8]) -> io::Result<()> {
    rt.write_all(bytes).inspect_err(|_| {
        let _ = rt.eprintln("standard output can't be written");
    })
}
