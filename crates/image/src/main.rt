#![tactic(auto)]
// Checks the EEPROM image on standard input and prints one line.
fn main(rt: HostRuntime) {
    // One byte more than an image has tells a longer input.
    let mut room = [0u8; 129];
    let n = host::read_full(&mut rt.stdin(), &mut room);
    let said = image_check::judged(&room[..n]);
    let _ = rt.write_all(said.line());
}
