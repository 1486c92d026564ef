// Reads four settings and the records of an event file from standard input, and writes a line for each record to
// standard output, as document 01 has it under "Files and tail".
//
// Which lines the bytes give stands in the contracts of `portions`, and that it does not matter in what portions they
// come in its claim `portions`; what is done with the bytes that are held stands in those of `feed`. Left here, and
// stated by no contract: that the bytes of standard input are read in their order, behind those that are held, and
// that what a call wrote is written.
// A read or a write that fails ends it with the error and status 1; `./pathlog` passes both on.
#![tactic(auto)]

use rows::places::ROWS;
use select::types::PATH_MAX_PER_PEER;
use session::types::*;
use std::io;
use std::io::{Read, Write};

// Bytes p to n of `buf` are held. Each turn is a call; one that did not stop for want of room is followed by a read.
fn main(rt: HostRuntime) -> io::Result<()> {
    let mut input = rt.reader();
    let mut output = io::writer(&rt);
    let mut bytes = [0u8; 65536];
    let mut text = [0u8; 65536];
    let buf: &mut [u8] = &mut bytes;
    let out: &mut [u8] = &mut text;
    let word = [0u64; 4];
    let path = [word; ROWS];
    let mut settings = [0u64; 4];
    let mut rec = [path; PATH_MAX_PER_PEER];
    let mut mark = portions::calls::begin(&mut settings, &mut rec);
    let mut p: usize = 0;
    let mut n: usize = 0;
    // What ends must be seen to end: 2^64 - 1 turns are more than any input has.
    for _ in 0..u64::MAX {
        let r = portions::feed::call(&mut settings, &mut rec, mark, buf, p, n, out);
        mark = r.mark;
        p = p.wrapping_add(r.place);
        output.write_all(&out[0..r.wrote])?;
        if portions::feed::is_over(mark.phase) {
            return Ok(());
        }
        if !r.full {
            let held = portions::feed::shift(buf, p, n);
            let got = input.read(&mut buf[held..])?;
            p = 0;
            n = held.wrapping_add(got);
            if n == held {
                let last = portions::feed::finish(mark, buf, 0, n, out);
                let line = &out[..];
                output.write_all(&line[0..last])?;
                return Ok(());
            }
        }
    }
    Ok(())
}
