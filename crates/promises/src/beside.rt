// What stands beside the promises: theorems that say more, and worked examples, computed.
ghost use Rattle.found.specs.Theorems.{TheSearchEnds, TheSearchCosts, FreshCardsAreFound, ActivationActivatesTheTaggedCard, AFoundCardIsActivatedAlone, OneZeroMissesACard, EveryAccessKeepsSoundness};
ghost use Rattle.runs.specs.Early.{RxEarlyComesAsBefore};
ghost use Rattle.no_trace.specs.Examples.{TwoStretches, ABudgetOf4LeavesATrace, NotAtRestLeavesATrace};
ghost use Rattle.no_trace.specs.Wrong.{WrongServicesHandUpDamage};
ghost use Rattle.sends_carried.specs.Carried.{ASendAnswersByTheTable, APacketIsStoredWhole, ASuccessTellsTheBytes, ClearStates};
ghost use Rattle.sends_carried.specs.Rooms.{BenchRowsOfTxFree};
ghost use Rattle.frames_carried.specs.Carried.{StoresAreSuch, AGoodFrameArrives, OneGoodFrameIsStored, OneGoodFrameIsHandedUp, ABudgetOf3061IsEnough};
ghost use Rattle.fits.specs.Free.{TheMemoryIsLeftFree};
ghost use Rattle.fits.specs.Order.{RefusalsComeInOrder};
ghost use Rattle.fits.specs.When.{RefusedExactlyWhen};
ghost use Rattle.fits.specs.Signed.{UnreadBytesAreSigned};
ghost use Rattle.fits.specs.NeedsExamples.{WhatServicesNeed};
ghost use Rattle.run_calls.specs.OneTest.{TheOneTestOfSoundness};
ghost use Rattle.driver_rules.specs.Unfit.{UnfitComesAtOnce};
ghost use Rattle.driver_examples.specs.Send.{SendExamples};
ghost use Rattle.driver_examples.specs.Service.{ServiceExamples, AFrameOf1514Bytes, WhatAGoodFrameCosts};

pub fn the_search_ends()
    ensures { TheSearchEnds }
{}

pub fn the_search_costs()
    ensures { TheSearchCosts }
{}

pub fn fresh_cards_are_found()
    ensures { FreshCardsAreFound }
{}

pub fn activation_activates_the_tagged_card()
    ensures { ActivationActivatesTheTaggedCard }
{}

pub fn a_found_card_is_activated_alone()
    ensures { AFoundCardIsActivatedAlone }
{}

pub fn one_zero_misses_a_card()
    ensures { OneZeroMissesACard }
{}

pub fn every_access_keeps_soundness()
    ensures { EveryAccessKeepsSoundness }
{}

// The least threshold moves no RX Early: at every moment of every run Status and all that is answered next are those of the rule before it, but for window 5's read-back.
pub fn rx_early_comes_as_before()
    ensures { RxEarlyComesAsBefore }
{}

// RX Status tells the unread bytes as a signed number, -3 to 1,792, and the rules that go by it are the rules before it.
pub fn unread_bytes_are_signed()
    ensures { UnreadBytesAreSigned }
{}

// A worked example: two damaged frames, one with service calls among its bytes.
pub fn two_stretches()
    ensures { TwoStretches }
{}

// Why the closing call has a budget of at least 5.
pub fn a_budget_of_4_leaves_a_trace()
    ensures { ABudgetOf4LeavesATrace }
{}

// Why the frame comes at rest.
pub fn not_at_rest_leaves_a_trace()
    ensures { NotAtRestLeavesATrace }
{}

// A service that looks at bit 15 and not at 14, and one that judges a frame by its first block, hand up damaged frames.
pub fn wrong_services_hand_up_damage()
    ensures { WrongServicesHandUpDamage }
{}

// A send answers 13, 2, 3, 5, 4 or a ticket exactly when document 01 says so, and a refusal changes nothing.
pub fn a_send_answers_by_the_table()
    ensures { ASendAnswersByTheTable }
{}

// A packet that is taken stands behind those that were stored, whole, byte for byte.
pub fn a_packet_is_stored_whole()
    ensures { APacketIsStoredWhole }
{}

// A success tells the wire the bytes of the oldest packet, then zeros up to 60, and that packet leaves.
pub fn a_success_tells_the_bytes()
    ensures { ASuccessTellsTheBytes }
{}

// Power-on is clear, and the ID port keeps it so.
pub fn clear_states()
    ensures { ClearStates }
{}

// The bench table's line of TX Free, for any bytes.
pub fn bench_rows_of_tx_free()
    ensures { BenchRowsOfTxFree }
{}

// What that asks of the store holds at power-on, and of every card's memory.
pub fn stores_are_such()
    ensures { StoresAreSuch }
{}

// A good frame that the filter takes and that fits arrives with all its bytes, whatever is called and sent while it comes.
pub fn a_good_frame_arrives()
    ensures { AGoodFrameArrives }
{}

// If it comes alone, it is stored behind the others, whole and byte for byte.
pub fn one_good_frame_is_stored()
    ensures { OneGoodFrameIsStored }
{}

// The oldest frame, if it is good, is handed up byte for byte, with its words and 3 accesses more.
pub fn one_good_frame_is_handed_up()
    ensures { OneGoodFrameIsHandedUp }
{}

// A budget of 3,061 is enough for any service, whatever is stored.
pub fn a_budget_of_3061_is_enough()
    ensures { ABudgetOf3061IsEnough }
{}

// The one thing left open, the memory that the view does not show, is open.
pub fn the_memory_is_left_free()
    ensures { TheMemoryIsLeftFree }
{}

// Every call's refusals come in the one order of the papers.
pub fn refusals_come_in_order()
    ensures { RefusalsComeInOrder }
{}

// Open, send and service answer a number exactly when document 01's table says so; 6 exactly when the budget is less than what the service needs.
pub fn refused_exactly_when()
    ensures { RefusedExactlyWhen }
{}

// A report needs 5 accesses, a good frame of 60 bytes 33, one of 1,514 bytes 760.
pub fn what_services_need()
    ensures { WhatServicesNeed }
{}

// The code's test of soundness and that of the runs are one.
pub fn the_one_test_of_soundness()
    ensures { TheOneTestOfSoundness }
{}

// Refusal 5 comes at the first Status read of a service or not at all.
pub fn comes_at_once()
    ensures { UnfitComesAtOnce }
{}

// Tickets, and each refusal of send.
pub fn send_examples()
    ensures { SendExamples }
{}

// Idle, frames good and damaged, reports, and each refusal of service.
pub fn service_examples()
    ensures { ServiceExamples }
{}

// The longest frame.
pub fn a_frame_of_1514_bytes()
    ensures { AFrameOf1514Bytes }
{}

// The law behind the figures.
pub fn what_a_good_frame_costs()
    ensures { WhatAGoodFrameCosts }
{}
