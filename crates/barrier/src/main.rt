// The program: a job from standard input, its report to standard output. What is printed is decided by crate `report`.
#![tactic(auto)]

ghost use Rattle.std.specs.Prelude.{◌≡◌, ◌≤◌, OnOk, length, take};
ghost use Rattle.std.specs.Io.KnownBytes.{Appends, Consumes};
ghost use Rattle.report.specs.Input.{passed_on};
ghost use Rattle.report.specs.Text.{reported};
ghost use Rattle.barrier.specs.Run.{Passes};

use std::io;
use std::io::{Read, Write};

// Room for as many bytes as are passed on.
fn job_room() -> [u8; 8192]
    ensures { passed_on ≡ length result }
{
    [0; 8192]
}

// One read into the room; where it fails, no bytes.
fn read_some<R: Read>(input: &mut R, room: &mut [u8]) -> usize
    ensures in_bounds { result ≤ length room.new }
    ensures bytes { Consumes (R.remaining input.old) (R.remaining input.new) (take result room.new) }
{
    match input.read(room) {
        Ok(count) => count,
        Err(_) => 0,
    }
}

// So many bytes of the input, or as many as it has; where it cannot be read it ends. What the input has given stands in the memory from its first byte on.
// That it reads on until the memory is full is tested.
fn read_input<R: Read>(input: &mut R, job: &mut [u8]) -> usize
    requires { passed_on ≡ length job.old }
    ensures in_bounds { result ≤ length job.new }
    ensures prefix_len { result ≡ length (take result job.new) }
    ensures bytes { Consumes (R.remaining input.old) (R.remaining input.new) (take result job.new) }
{
    let mut read = 0;
    // A `while`: only a read says how many bytes it gives.
    while read < job.len() {
        let count = read_some(input, &mut job[read..]);
        if count == 0 {
            break;
        }
        read += count;
    }
    read
}

// Room for every report.
fn text_room() -> [u8; 32768]
    ensures { 32768 ≡ length result }
{
    [0; 32768]
}

// The report stands in the first bytes of the text; this many.
fn fill(job: &[u8], text: &mut [u8]) -> usize
    requires { 32768 ≤ length text.old }
    ensures in_bounds { result ≤ length text.new }
    ensures prefix_len { result ≡ length (take result text.new) }
    ensures text_after { take result text.new ≡ reported job.now }
{
    report::report(job, text).unwrap_or(0)
}

// From the input to the output: the report of the bytes that the input has given, at most so many, and nothing else, where all is written.
fn run<R: Read, W: Write>(input: &mut R, output: &mut W) -> io::Result<()>
    ensures { OnOk result (Passes (R.remaining input.old) (R.remaining input.new) (W.contents output.old) (W.contents output.new)) }
{
    let mut job = job_room();
    let mut text = text_room();
    let read = read_input(input, &mut job);
    let count = fill(&job[..read], &mut text);
    output.write_all(&text[..count])
}

// It ends with status 0 also where the report cannot be written, and says so where it can.
fn main(rt: HostRuntime) {
    if run(&mut rt.stdin(), &mut rt.stdout()).is_err() {
        let _ = rt
            .stderr()
            .write_all(b"barrier: the report could not be written\n");
    }
}
