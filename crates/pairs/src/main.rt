// The text program: reads pairs of samples from standard input, a line each, and writes a
// header and for each line its figures or its refusal. Every byte that it writes is text's.
#![tactic(auto)]

ghost use Rattle.std.specs.Prelude.{◌≡◌, ◌++◌, List, ℕ, IfOk, OnOk, IfSome};
ghost use Rattle.std.specs.Io.KnownBytes.{Appends};
ghost use Rattle.text.specs.Stream.{held_after, held_text, last_text, state_held, state_of, text_so_far};
ghost use Rattle.text.specs.Text.{text_of};

use std::io;
use std::io::{Error, ErrorKind, Read, Write};
use text::State;

// Answers a piece of the input: the state after it, once its answers are written. The buffer is
// written each time that it is full.
fn answer<W: Write>(output: &mut W, start: State, chunk: &[u8], out: &mut [u8]) -> io::Result<State>
    ensures state { IfOk result (λ state. state_held state ≡ held_after (state_held start) chunk.now) }
    ensures answers { OnOk result
        (Appends (W.contents output.old) (W.contents output.new) (held_text (state_held start) chunk.now)) }
{
    let mut state = start;
    let mut from = 0;
    while from < chunk.len() {
        let p = text::step(state, &chunk[from..], out);
        state = p.state;
        output.write_all(&out[..p.written])?;
        if p.read == 0 {
            return Err(Error::from(ErrorKind::Other));
        }
        from += p.read;
    }
    Ok(state)
}

// The answer of a last line that no newline ends.
fn answer_last<W: Write>(output: &mut W, state: State) -> io::Result<()>
    ensures { OnOk result
        (Appends (W.contents output.old) (W.contents output.new) (last_text (state_held state))) }
{
    output.write_all(text::finish(state).as_bytes())
}

// Writes the header, and reads and answers to the end of the input: what it writes is the text
// program's output for the whole input. A read or a write that fails ends it. A proved loop has to
// end, and nothing says that the input does: so the turns are counted, up to a number that no run
// uses up.
fn answer_all<R: Read, W: Write>(input: &mut R, output: &mut W) -> io::Result<()>
    ensures { OnOk result (IfSome (R.remaining input.old)
        (λ bytes. Appends (W.contents output.old) (W.contents output.new) (text_of bytes))) }
{
    let mut chunk = [0u8; 65536];
    let mut out = [0u8; 65536];
    let mut state = text::start();
    output.write_all(&text::header())?;
    for _ in 0..u64::MAX {
        let got = input.read(&mut chunk)?;
        if got == 0 {
            return answer_last(output, state);
        }
        state = answer(output, state, &chunk[..got], &mut out)?;
    }
    Err(Error::from(ErrorKind::Other))
}

fn main(rt: HostRuntime) -> io::Result<()> {
    answer_all(&mut rt.stdin(), &mut rt.stdout())
}
