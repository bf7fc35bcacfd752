#![tactic(auto)]
// Reads a catalogue's file from standard input and prints `sound`, or `refused ` and the number, or that it is too long.
use std::io::Read;

// The largest file that is read, as the program `catalogue` has it.
const ROOM: usize = 262144;

fn main(rt: HostRuntime) {
    let mut room = [0u8; ROOM];
    let mut input = rt.stdin();
    let n = host::read_full(&mut input, &mut room);
    if let Ok(1) = input.read(&mut [0u8; 1]) {
        let _ = println!(rt; "larger than {ROOM} bytes");
        return;
    }
    match catalogue_read::check(&room[..n]) {
        Ok(_) => {
            let _ = println!(rt; "sound");
        }
        Err(why) => {
            let _ = print!(rt; "refused ");
            let _ = print!(rt; "{:2}", refusal::number(why));
            let _ = println!(rt);
        }
    }
}
