#![tactic(auto)]
// Plays each script file that its arguments name, from power-on: the name, then the answers.

// One script.
fn tell(rt: &HostRuntime, path: &[u8]) {
    let mut file = match host::open(rt, path) {
        Ok(file) => file,
        Err(why) => {
            host::fail(rt, path, why);
            return;
        }
    };
    let _ = rt.write_all(b"== ");
    let _ = rt.write_all(path);
    let _ = rt.write_all(b"\n");
    bench_lib::play(rt, &mut file);
}

// The script that argument i names.
fn tell_argument(rt: &HostRuntime, i: usize) {
    let mut path = [0u8; 4096];
    match host::arg(rt, i, &mut path) {
        Ok(length) => tell(rt, &path[..length]),
        Err(why) => host::fail(rt, b"path", why),
    }
}

fn main(rt: HostRuntime) {
    for i in 1..host::arg_count(&rt) {
        tell_argument(&rt, i);
    }
}
