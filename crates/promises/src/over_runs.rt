// Demands 2 and 3 over runs: lists of events over the adapter and the driver, with no card's bytes in sight. Since the calls take the steps, those over calls follow.
ghost use Rattle.no_trace.specs.NoTrace.{DamagedFramesLeaveNoTrace};
ghost use Rattle.sends_carried.specs.Carried.{SendsAreCarried};
ghost use Rattle.sends_carried.specs.Host.{HostPacketsGoOnTheWire};
ghost use Rattle.frames_carried.specs.Carried.{WhatTheWireBringsIsWhatTheHostReads};
ghost use Rattle.frames_carried.specs.Host.{HostReadsBringTheFrame};

// Demand 2: what the host writes is what goes on the wire.
pub fn sends_are_carried()
    ensures { SendsAreCarried }
{}

// Demand 2: what the wire brings is what the host reads, nothing else, and nothing good is left behind.
pub fn what_the_wire_brings_is_what_the_host_reads()
    ensures { WhatTheWireBringsIsWhatTheHostReads }
{}

// Demand 2 for a host that needs no driver: a packet written whole by register writes,
pub fn host_packets_go_on_the_wire()
    ensures { HostPacketsGoOnTheWire }
{}

// .. and the words read at the data port.
pub fn host_reads_bring_the_frame()
    ensures { HostReadsBringTheFrame }
{}

// Demand 3: damaged frames leave no trace.
pub fn damaged_frames_leave_no_trace()
    ensures { DamagedFramesLeaveNoTrace }
{}
