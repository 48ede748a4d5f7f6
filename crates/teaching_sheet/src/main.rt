// The sheet for teaching: the listing, up to dimension 5 and at floor 0, of a degree short enough to hand out.
// The main of `list`: a program of its own, as a program is run on one stored line.
#![tactic(auto)]

use std::io;

fn main(rt: HostRuntime) -> io::Result<()> {
    listing_program::program::run(&mut rt.stdin(), &mut rt.stdout())
}
