// The page program: records from standard input, pages of their accepted ticks to standard output.
#![tactic(auto)]

use program::Streams;
use tapes::printing::Style;

fn main(rt: HostRuntime) {
    let _ = program::print(&mut Streams::from(rt), b"page: ", Style::Pages);
}
