#![tactic(auto)]
// The bench: a script on standard input, an answer a line on standard output.
fn main(rt: HostRuntime) {
    bench_lib::play(&rt, &mut rt.stdin());
}
