//! Runs commands in memory as the rows of files say, which the words of the command line name, and tells what is answered otherwise. The
//! files stand in `data`, and what is printed in `stdout`.
#![tactic(auto)]

mod reading;
mod running;

use crate::reading::{Row, Taken};
use crate::running::{Count, run_row};
use std::{env, fs, io};

/// Runs the rows of the file of this name and this text, and counts them.
fn run_file(rt: &(impl Print + AllocGlobal), name: &str, text: &str) -> io::Result<Count> {
    let mut count = Count {
        as_said: 0,
        otherwise: 0,
    };
    let mut row = Row::new(rt.alloc());
    let mut number: u32 = 0;
    for line in text.lines() {
        number = number.wrapping_add(1);
        match row.take(line)? {
            Taken::Part => {}
            Taken::End(status) => {
                let before = count.otherwise;
                run_row(rt, &row, status, &mut count)?;
                if count.otherwise != before {
                    println!(rt; "so not as line {number} of {name} says")?;
                }
            }
            Taken::Strange => println!(rt; "line {number} of {name} is of no row")?,
        }
    }
    Ok(count)
}

fn main(rt: HostRuntime) -> io::Result<()> {
    let mut names = env::args(&rt)?;
    let _ = names.next();
    for name in names {
        let text = fs::read_to_string(&rt, name.as_str())?;
        let Count { as_said, otherwise } = run_file(&rt, name.as_str(), text.as_str())?;
        println!(rt; "{name}: {as_said} as said, {otherwise} otherwise")?;
    }
    Ok(())
}
