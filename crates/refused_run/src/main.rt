//! The program, run on a certificate of several kilobytes that is refused at its last line: it ends with status 1.
#![tactic(auto)]

use front_door::{Ended, serve};

fn main(rt: HostRuntime) -> Ended {
    serve(&rt, &rt.stderr())
}
