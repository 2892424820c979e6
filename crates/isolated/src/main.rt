// The program `isolated`: NOTION KIND C as words, a graph as a text on standard input, one line a group on standard output.
#![tactic(auto)]

fn main(rt: HostRuntime) {
    cli::program::program(&rt);
}
