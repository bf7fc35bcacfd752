#![tactic(auto)]
// The refusals: document 01's table "Numbers a call may answer", in its order.
ghost use Rattle.refusal.specs.RefusalContracts as contract;

// Each is named by what is wrong, and stands with its number.
#[derive(Clone, Copy, PartialEq, Eq)]
pub enum Refusal {
    // The state handed in is unsound.
    StateUnsound = 1,
    // Packet length outside 14 to 1,514, or image not 128 bytes.
    LengthOutside = 2,
    // Sixteen packets sent and unreported.
    SixteenUnreported = 3,
    // TX Free below 4 plus the length rounded up to 4.
    NoRoom = 4,
    // Send or service reads a Status word with Adapter Failure or a window other than 1.
    CardUnfit = 5,
    // Budget short.
    BudgetShort = 6,
    // Lookahead area under 256 bytes or frame area under 1,514.
    AreaShort = 7,
    // EEPROM word 07h is not 6D50h.
    MakerWrong = 8,
    // Word 0Fh is not the checksum.
    ChecksumWrong = 9,
    // Word 17h is not the secondary checksums.
    SecondaryWrong = 10,
    // A wire call or a send outcome that has no place now.
    OutOfTurn = 11,
    // A register offset, an ID port, a tag, a base number or a count of cards that there is not.
    ArgumentOutside = 12,
    // Send or service on a driver never opened.
    NeverOpened = 13,
    // A field of a catalogue is out of turn or has a wrong length, or the count of its fields is wrong.
    FieldDamaged = 15,
    // A catalogue ends inside a field or without the count of its fields.
    FileEndsEarly = 16,
    // The catalogue has no such card or version.
    NoSuchCard = 17,
    // No room for a card, a version or a number.
    NoPlace = 18,
    // An address is listed twice.
    ListedTwice = 19,
}

// The paper's number of a refusal.
pub fn number(why: Refusal) -> u8
    ensures { contract.Number why result }
{
    why as u8
}
