// The nightly export: the listing of one degree up to dimension 5 at floor 0, in pages of 50 rows; its input line names them all.
// The main of `list`: a program of its own, as a program is run on one stored line.
#![tactic(auto)]

use std::io;

fn main(rt: HostRuntime) -> io::Result<()> {
    listing_program::program::run(&mut rt.stdin(), &mut rt.stdout())
}
