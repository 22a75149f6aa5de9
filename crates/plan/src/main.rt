// The program: it reads, hands over, and writes. S and ids from standard input; to standard output, the plan or the first fault met.
// A proved loop has to end, so reads are counted up to a number that no run reaches. A read that fails ends the program without output.
#![tactic(auto)]

use document::plan::Plan;
use intake::input;
use program::Fault;
use std::io;
use std::io::{Read, Stdout, Write};

// What is said, line by line.
fn write(out: &mut Stdout, said: Result<Plan, Fault>, c: &[i64]) -> io::Result<()> {
    let mut line = [0u8; 105];
    let n = texts::first(said, &mut line);
    out.write_all(&line[..n])?;
    for k in 0..texts::count(said) {
        let m = texts::line(said, c, k, &mut line);
        out.write_all(&line[..m])?;
    }
    Ok(())
}

// Memory for the set, of the program's sizes: pages, rows, block counts, table; then boundaries, and a part of the input.
fn main(rt: HostRuntime) -> io::Result<()> {
    let mut p = [0u64; 1024];
    let mut r = [0u32; 2048];
    let mut b = [0u32; 128];
    let mut t = [0u64; 144];
    let mut c = [0i64; 256];
    let mut bytes = [0u8; 65536];
    let mut at = input::begin(&mut p, &mut r, &mut b, &mut t);
    let mut stdin = rt.stdin();
    for _ in 0..u64::MAX {
        let n = stdin.read(&mut bytes)?;
        if n == 0 {
            let said = planner::tell(&mut p, &mut r, &mut b, &mut t, at, &mut c);
            return write(&mut rt.stdout(), said, &c);
        }
        at = input::take(&mut p, &mut r, &mut b, &mut t, at, &bytes[..n]);
    }
    Ok(())
}
