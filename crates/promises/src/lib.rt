#![tactic(auto)]
// What is promised of the public calls, of which nothing is known but their contracts. Each statement stands in one file, and the crate that it is named after has the rest.
ghost use Rattle.over_calls.specs.Refused.{ARefusedCallChangesNothing};
ghost use Rattle.over_calls.specs.Sends.{SendsOverCalls};
ghost use Rattle.over_calls.specs.Frames.{FramesOverCalls};
ghost use Rattle.over_calls.specs.Host.{HostPacketsOverCalls, HostReadsOverCalls};
ghost use Rattle.over_calls.specs.Over.{NoTraceOverCalls};
ghost use Rattle.fits.specs.Fits.{NothingElseFits};
ghost use Rattle.found.specs.Theorems.{TheSearchFindsEveryCard};
ghost use Rattle.bench_table.specs.Table.{TheBenchTable};
ghost use Rattle.runs.specs.Sound.{EveryStepKeepsSoundness};
ghost use Rattle.run_calls.specs.Takes.{TheCallsTakeTheSteps};

mod beside; // beside.rt: what stands beside the promises
mod over_runs; // over_runs.rt: demands 2 and 3 over runs, from which those over calls follow

// Demand 1: a refused call hands back card, driver, memory and each lent area just as they came.
pub fn a_refused_call_changes_nothing()
    ensures { ARefusedCallChangesNothing }
{}

// Demand 2: what is sent is what goes on the wire, each packet once, in order, byte for byte.
pub fn sends_over_calls()
    ensures { SendsOverCalls }
{}

// Demand 2: what the wire brings is what the host reads, each good frame once, in order, byte for byte. Nothing else is read;
// and after an open nothing good is left behind: service calls enough hand up every good frame that fits.
pub fn frames_over_calls()
    ensures { FramesOverCalls }
{}

// Demand 2 for a host that needs no driver: a packet written whole by register writes goes on the wire as it was written,
pub fn host_packets_over_calls()
    ensures { HostPacketsOverCalls }
{}

// .. and the words read at the data port are the bytes of the oldest frame.
pub fn host_reads_over_calls()
    ensures { HostReadsOverCalls }
{}

// Demand 3: a damaged frame leaves no trace. No byte of it is handed up, and no later answer differs.
pub fn no_trace_over_calls()
    ensures { NoTraceOverCalls }
{}

// The contract of each public call determines its answer and the end of everything that it is handed.
pub fn nothing_else_fits()
    ensures { NothingElseFits }
{}

// The search finds every card, in ascending order, and tags them from 1.
pub fn the_search_finds_every_card()
    ensures { TheSearchFindsEveryCard }
{}

// Every figure of document 01's bench table.
pub fn the_bench_table()
    ensures { TheBenchTable }
{}

// Power-on is sound with any words, and every step keeps soundness.
pub fn every_step_keeps_soundness()
    ensures { EveryStepKeepsSoundness }
{}

// Any public calls, one after the other, leave and answer what the run of their events does: so what is promised of runs is promised of the code.
pub fn the_calls_take_the_steps()
    ensures { TheCallsTakeTheSteps }
{}
