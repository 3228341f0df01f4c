// storecheck: reads a store file on standard input and prints the report on it.
#![tactic(auto)]

ghost use Rattle.std.specs.Prelude.{◌≡◌, ◌+◌, ◌≤◌, length};
ghost use Rattle.storecheck.specs.Counts.{IsPrefixLen};

use report::program;
use std::io::Read;
use storefile::opening;

// Reads until the buffer is full, the input ends or a read fails, and returns how many bytes it put at the buffer's start: `read_exact`
// doesn't tell how many where the input ends before.
fn read_full<R: Read>(input: &mut R, buf: &mut [u8]) -> usize
    ensures { IsPrefixLen result buf.new }
{
    let mut done = 0;
    while done < buf.len() {
        match input.read(&mut buf[done..]) {
            Ok(0) => break,
            Ok(n) => done += n,
            Err(_) => break,
        }
    }
    done
}

// Reads the header, or as much of it as there is.
fn read_header<R: Read>(input: &mut R, file: &mut [u8]) -> usize
    requires { 28 ≤ length file.old }
    ensures { result ≤ 28 }
{
    read_full(input, &mut file[..28])
}

// Reads what follows the header, so that no more bytes than needed are there.
fn read_bodies<R: Read>(input: &mut R, file: &mut [u8], needed: usize) -> usize
    requires { (28 ≤ needed) × (needed ≤ length file.old) }
    ensures { 28 + result ≤ needed }
{
    read_full(input, &mut file[28..needed])
}

// Reads as many bytes as are needed to answer, and returns their number: the header tells how many. The largest store that is taken
// has 20,188 bytes, and one byte more shows that a file is too long. Room of a fixed size, and a number: nothing is allocated here.
fn read_needed<R: Read>(input: &mut R, file: &mut [u8]) -> usize
    requires { length file.old ≡ 20189 }
    ensures { IsPrefixLen result file.new }
{
    let first = read_header(input, file);
    if first < 28 {
        return first;
    }
    let needed = opening::bytes_needed(16, &file[..28]);
    28 + read_bodies(input, file, needed)
}

// Prints the report on a file. It ends alike whether all of it was written or not.
fn print_report<P: Print>(to: &P, file: &[u8], text: &mut [u8]) {
    if let Ok(size) = program::report_on(file, text) {
        let _ = to.write_all(&text[..size]);
    }
}

fn main(rt: HostRuntime) {
    let mut file = [0u8; 20189];
    let n = read_needed(&mut rt.stdin(), &mut file);
    let mut text = [0u8; 256];
    print_report(&rt, &file[..n], &mut text);
}
