// The tape program: records from standard input, their lines to standard output.
#![tactic(auto)]

use program::Streams;
use tapes::printing::Style;

fn main(rt: HostRuntime) {
    let _ = program::print(&mut Streams::from(rt), b"tape: ", Style::Lines);
}
