//! The program `schema2proto`: it reads an SBE schema from standard input, and writes proto3
//! source, or one line with a refusal, to standard output.
//!
//! All of it is `service::serve`, whose contract says which bytes are read and written. No proof
//! covers what the system hands over as input, and what it makes of the output.
#![tactic(auto)]

use service::serve;
use std::io;

fn main(rt: HostRuntime) -> io::Result<()> {
    serve(&mut rt.stdin(), &mut rt.stdout())
}
