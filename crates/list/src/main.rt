// The listing program: document 01's list for a line of standard input.
#![tactic(auto)]

use std::io;

fn main(rt: HostRuntime) -> io::Result<()> {
    listing_program::program::run(&mut rt.stdin(), &mut rt.stdout())
}
