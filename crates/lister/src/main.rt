// The lister: the tokens of standard input, a line for each.
#![tactic(auto)]

use std::io;

fn main(rt: HostRuntime) -> io::Result<()> {
    lister_listing::list_input(&rt)
}
