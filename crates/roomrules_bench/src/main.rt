// `roomrules` on the bench of document 01 and every refusal: tests/program/bench.records as bytes.
#![tactic(auto)]

fn main(rt: HostRuntime) {
    room_io::run(&mut rt.stdin(), &mut rt.stdout());
}
