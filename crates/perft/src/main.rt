//! Counts legal lines: for each line `DEPTH FEN` of standard input, the number of lines of so many legal moves.
#![tactic(auto)]

mod answers;
mod lines;

use answers::{answer, fault_name};
use std::io;
use std::io::{BufRead, BufReader};

fn main(rt: HostRuntime) -> io::Result<()> {
    let alloc = rt.alloc();
    for line in BufReader::new(alloc, rt.reader())?.lines(alloc) {
        let line = line?;
        match answer(line.as_str()) {
            Ok(count) => println!(rt; "{count}")?,
            Err(fault) => {
                let name = fault_name(fault);
                println!(rt; "fault {name}")?
            }
        }
    }
    Ok(())
}
