// Reads records from standard input, and writes a line for each and a last one.
#![tactic(auto)]

fn main(rt: HostRuntime) {
    room_io::run(&mut rt.stdin(), &mut rt.stdout());
}
