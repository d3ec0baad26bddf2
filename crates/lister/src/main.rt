// The lister: reads an image from standard input, and writes its listing or the refusal to standard output. A read that fails ends the input.
#![tactic(auto)]

ghost use Rattle.std.specs.Counts.{IsPrefixLen};

use std::io;
use std::io::Read;

mod listing;
mod text;

// Room for one byte more than the largest image that is listed.
const INPUT: usize = listing::MAX_LISTED + 1;

// Reads until the buffer is full, the input ends or a read fails, and gives how many bytes it put at the start of the buffer.
// The library's `read_to_end` reads into a `Vec`, and nothing here is on the heap.
fn read_full<R: Read>(input: &mut R, buf: &mut [u8]) -> usize
    ensures { IsPrefixLen result buf.new }
{
    let mut done = 0;
    while done < buf.len() {
        let Ok(n @ 1..) = input.read(&mut buf[done..]) else {
            break;
        };
        done += n;
    }
    done
}

fn main(rt: HostRuntime) -> io::Result<()> {
    let mut image = [0; INPUT];
    let got = read_full(&mut rt.reader(), &mut image);
    let mut out = [0; listing::MAX_LISTING];
    let count = listing::render(&image[..got], &mut out);
    rt.write_all(&out[..count])
}
