// Prints the book in the file `book`; the gate runs it on a book of legs.
// kept twice, as show and show_ropes: the gate runs a program with one list of arguments and one folder of files.
#![tactic(auto)]

use programs::viewer::run;

fn main(rt: HostRuntime) -> anyhow::Result<()> {
    run(&rt)
}
