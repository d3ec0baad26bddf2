// Runs a script on a fresh volume: reads it from standard input, formats 16 blocks with a root of two, starts a journal, and writes one
// byte that says whether the script was run, then image, journal and answers. For tests: everything that it shows is made by `script::runner::run`.
#![tactic(auto)]

ghost use Rattle.std.specs.Counts.{IsPrefixLen};

use script::runner::NotRun;
use std::io;
use std::io::Read;

const INPUT: usize = 65536;

const IMAGE: usize = 8192;

const JOURNAL: usize = 16384;

const ANSWERS: usize = 16384;

// The byte that is written first; no rule has the numbers of M and R.
fn status_of(ran: Result<(), NotRun>) -> u8 {
    match ran {
        Ok(()) => 0,
        Err(NotRun::Malformed) => b'M',
        Err(NotRun::NoRoom) => b'R',
    }
}

// Reads until the buffer is full, the input ends or a read fails, and gives how many bytes it put at the start of the buffer.
// The library's `read_to_end` reads into a `Vec`, and nothing here is on the heap.
fn read_full<R: Read>(input: &mut R, buf: &mut [u8]) -> usize
    ensures { IsPrefixLen result buf.new }
{
    let mut done = 0;
    while done < buf.len() {
        let Ok(n @ 1..) = input.read(&mut buf[done..]) else {
            break;
        };
        done += n;
    }
    done
}

fn main(rt: HostRuntime) -> io::Result<()> {
    let mut script = [0; INPUT];
    let got = read_full(&mut rt.reader(), &mut script);
    let mut image = [0; IMAGE];
    let mut journal = [0; JOURNAL];
    let mut answers = [0; ANSWERS];
    // Neither is refused with these lengths.
    let _ = volume::format::format(&mut image, 2, 0, [0; 16], &[0; 128]);
    let _ = journal::start::start(&mut journal);
    let ran = script::runner::run(&script[..got], &mut image, &mut journal, &mut answers);
    rt.write_all(&[status_of(ran)])?;
    rt.write_all(&image)?;
    rt.write_all(&journal)?;
    rt.write_all(&answers)
}
