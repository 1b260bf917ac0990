// Reads a table of tickets, each with the answer that the rules give, and says whether the library answers the same.
#![tactic(auto)]

ghost use Rattle.std.specs.Prelude.{◌≡◌};
ghost use Rattle.readings.specs.Lines.{is_case};

mod answer;
mod bad_line;
mod case;
mod expected;
mod hex;
mod kind;
mod tally;

use answer::Answer;
use case::Case;
use std::alloc::Global;
use std::io;
use std::io::{BufRead, BufReader};
use tally::Tally;

// Blank lines and comments set the groups of the table apart, and hold no case.
fn is_case(line: &str) -> bool
    ensures { result ≡ is_case line.now }
{
    !matches!(line.as_bytes(), [] | [b'#', ..])
}

// Prints how one line of the table turned out, and answers whether it agrees.
fn try_line(rt: &impl Print, heap: Global, line: &str) -> io::Result<bool> {
    let case = match Case::from_line(heap, line) {
        Ok(case) => case,
        Err(reason) => {
            println!(rt; "BAD LINE: {reason}: {line}")?;
            return Ok(false);
        }
    };
    let name = case.name;
    let got = Answer::of(heap, case.expected.kind, &case.bytes);
    let agrees = got == case.expected.answer;
    if agrees {
        println!(rt; "ok {name}")?;
    } else {
        println!(rt; "WRONG {name}: got {got}")?;
    }
    Ok(agrees)
}

fn main(rt: HostRuntime) -> io::Result<()> {
    let heap = rt.alloc();
    let mut tally = Tally::new();
    for line in BufReader::new(heap, rt.stdin())?.lines(heap) {
        let line = line?;
        let line = line.trim();
        if is_case(line) {
            tally.count(try_line(&rt, heap, line)?);
        }
    }
    println!(rt; "{tally}")
}
