// Reads each text of data/ whose name stands on standard input, and prints its name and what comes of it.
#![tactic(auto)]

use std::{fs, io};

fn main(rt: HostRuntime) -> io::Result<()> {
    for line in rt.lines(rt.alloc()) {
        let name = line?;
        let text = fs::read(&rt, name.as_str())?;
        match text::check(text.as_slice()) {
            Ok(()) => println!(rt; "{name}: read")?,
            Err(fault) => {
                println!(rt; "{name}: fault {} at {}", fault.number(), fault.offset())?
            }
        }
    }
    Ok(())
}
