// Counts a t-value again: for degree, p, q and dimension on a line of standard input it prints what both engines give.
#![tactic(auto)]

use std::io;

fn main(rt: HostRuntime) -> io::Result<()> {
    recount_program::run(&mut rt.stdin(), &mut rt.stdout())
}
