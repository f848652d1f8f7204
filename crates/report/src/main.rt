// Reads an order file from standard input, and prints its report.
#![tactic(auto)]

use records::LONGEST_FILE;
use reporting::{Report, report_of};
use standard_input::fill;
use std::io;
use std::io::Write;

// One byte more than the longest order file: a file that fills it is too long.
const MOST_BYTES: usize = LONGEST_FILE + 1;

fn main(rt: HostRuntime) -> io::Result<()> {
    let mut buffer = [0; MOST_BYTES];
    let have = fill(&rt, &mut buffer)?;
    // A report is written as a whole, so that others who write to the same file do not come between its lines.
    match report_of(rt.alloc(), &buffer[..have])? {
        Report::Plan(text) => rt.stdout().write_all(text.as_bytes()),
        Report::Refusal(line) => {
            rt.stdout().write_all(line.as_bytes())?;
            Err(io::ErrorKind::InvalidData.into())
        }
    }
}
