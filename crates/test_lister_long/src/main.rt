// The lister on one byte more than it takes, read from standard input.
#![tactic(auto)]

use std::io;

fn main(rt: HostRuntime) -> io::Result<()> {
    lister_listing::list_input(&rt)
}
