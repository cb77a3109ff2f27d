//! A stored session of one cube: answers each line of standard input as the whole program does, over a fresh image in memory with
//! one slot and two groups. Where the plain tree would answer otherwise, a line says so.
#![tactic(auto)]

use cube_lines::Session;
use ice_keep::ThroughKeep;
use ice_text::{Out, write_reply};
use std::io::{self, BufRead, BufReader, BufWriter, Write};

fn main(rt: HostRuntime) -> io::Result<()> {
    let alloc = rt.alloc();
    let mut session = Session::new(alloc)?;
    let mut out = Out::new(alloc)?;
    let mut bytes = vec![in alloc; 0u8; 16384]?;
    let mut output = BufWriter::new(alloc, io::writer(&rt))?;
    for line in BufReader::new(alloc, rt.reader())?.split(alloc, b'\n') {
        let line = line?;
        let answer = session.line(alloc, &mut ThroughKeep::new(), &line, &mut bytes)?;
        out.clear();
        write_reply(&answer.reply, &session.room, &mut out);
        output.write_all(out.bytes())?;
        if !answer.agrees {
            output.write_all(b"the plain tree answers otherwise\n")?;
        }
    }
    output.flush()
}
