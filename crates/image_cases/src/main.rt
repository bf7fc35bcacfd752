#![tactic(auto)]
// Checks each EEPROM image file that its arguments name: the name, and the line of the check.
// The line of one file.
fn tell(rt: &HostRuntime, path: &[u8]) {
    let mut file = match host::open(rt, path) {
        Ok(file) => file,
        Err(why) => {
            host::fail(rt, path, why);
            return;
        }
    };
    // One byte more than an image has tells a longer file.
    let mut room = [0u8; 129];
    let n = host::read_full(&mut file, &mut room);
    let said = image_check::judged(&room[..n]);
    let _ = rt.write_all(path);
    let _ = rt.write_all(b": ");
    let _ = rt.write_all(said.line());
}

// The line of the file that argument i names.
fn tell_argument(rt: &HostRuntime, i: usize) {
    let mut path = [0u8; 4096];
    match host::arg(rt, i, &mut path) {
        Ok(length) => tell(rt, &path[..length]),
        Err(why) => host::fail(rt, b"path", why),
    }
}

fn main(rt: HostRuntime) {
    for i in 1..host::arg_count(&rt) {
        tell_argument(&rt, i);
    }
}
