// Figures: reads file names from standard input, a name a line, and reports the tokens of each kind and the errors of each
// number, for each file and in all.
#![tactic(auto)]

use std::io;

fn main(rt: HostRuntime) -> io::Result<()> {
    figures_report::report_input(&rt)
}
