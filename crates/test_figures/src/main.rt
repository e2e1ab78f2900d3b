// The program `figures` on the same names in another order: the totals are the same.
#![tactic(auto)]

use std::io;

fn main(rt: HostRuntime) -> io::Result<()> {
    figures_report::report_input(&rt)
}
