// The program `bracket`: reads the settings line and two files, and prints what `report` makes of them.
#![tactic(auto)]

ghost use Rattle.bracket.specs.Counts.{IsPrefixLen};

use files_text::{GREY_LENT, OUTPUT_LENT, WORDS_LENT};
use report::MAX_FILE;
use std::io::Read;
use std::rt::Files;
use std::{fs, io};

// How much is read at most; report's proofs/ReadLimits shows that more, of a line too, would print nothing
// else. The longest good line has 29 bytes, and one byte more than the most tells that a file is longer.
const LINE: usize = 30;

const FILE: usize = MAX_FILE + 1;

fn main(rt: HostRuntime) -> io::Result<()> {
    let mut input = [0u8; LINE];
    let mut first = [0u8; FILE];
    let mut second = [0u8; FILE];
    let mut grey = [0u8; GREY_LENT];
    let mut words = [0u64; WORDS_LENT];
    let mut out = [0u8; OUTPUT_LENT];
    let line = read_line(&mut rt.stdin(), &mut input);
    let one = read_file(&rt, "first.ppm", &mut first);
    let two = read_file(&rt, "second.ppm", &mut second);
    let n = report::report(
        &input[..line],
        &first[..one],
        &second[..two],
        &mut grey,
        &mut words,
        &mut out,
    );
    rt.write_all(&out[..n])
}

// Reads a line with its byte 10, or to the end of input, or until buf is full, and answers the number
// of bytes; 0 where a read fails. A byte at a time, so as not to wait for what comes after the line.
fn read_line(input: &mut impl Read, buf: &mut [u8]) -> usize
    ensures { IsPrefixLen result buf.new }
{
    let mut done: usize = 0;
    while done < buf.len() {
        let next = done + 1;
        let Ok(got) = input.read(&mut buf[done..next]) else {
            return 0;
        };
        if got == 0 {
            return done;
        }
        let byte = buf[done];
        done = next;
        if byte == b'\n' {
            return done;
        }
    }
    done
}

// Reads to the end of a file, or until buf is full, and answers the number of bytes; 0 where a read
// fails.
fn read_all(file: &mut impl Read, buf: &mut [u8]) -> usize
    ensures { IsPrefixLen result buf.new }
{
    let mut done: usize = 0;
    while done < buf.len() {
        let Ok(n) = file.read(&mut buf[done..]) else {
            return 0;
        };
        if n == 0 {
            return done;
        }
        done += n;
    }
    done
}

// The bytes of a file, as many as buf holds; a file that cannot be opened or read counts as missing.
fn read_file(rt: &impl Files, path: &str, buf: &mut [u8]) -> usize
    ensures { IsPrefixLen result buf.new }
{
    let Ok(mut file) = fs::open(rt, path) else {
        return 0;
    };
    read_all(&mut file, buf)
}
