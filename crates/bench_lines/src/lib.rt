#![tactic(auto)]
// What a line of a script asks of the card and of the ID port is done here; the driver's lines are `bench_lib`'s.
pub mod host_lines; // host_lines.rt: the host's accesses, and RX Status without one
pub mod port_lines; // port_lines.rt: the ID port
pub mod wire_lines; // wire_lines.rt: what the wire does: a frame that comes, and the outcome of a packet that goes
