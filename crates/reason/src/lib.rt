// The reasons for which the box says no, one for each row of document 01's table
// "When the box says no". Each reason is named by what is wrong; `number_of` states its number.
#![tactic(auto)]

ghost use Rattle.std.specs.Prelude.{◌≡◌};
ghost use Rattle.reason.specs.Reason.{number_of};

#[derive(Clone, Copy)]
pub enum Reason {
    // The node is 0.
    NodeZero = 1,
    // A write of no byte, or of more than the largest write.
    BadLength = 2,
    // Offset and length go past the end that a file may have.
    PastFileEnd = 3,
    // The write needs more slots than are free.
    NoRoom = 4,
    // The numbers are used up.
    NoNumber = 5,
    // A flush is under way.
    FlushUnderWay = 6,
    // The number is not that of the flush under way.
    NotTheFlush = 7,
    // The bytes are not a ring.
    Unreadable = 8,
    // There is no such live pin.
    NoSuchPin = 9,
    // There are as many pins as there may be.
    TooManyPins = 10,
    // A lent buffer is too short, too long, or of no valid length.
    BadBuffer = 11,
    // The state does not fit the ring.
    StateUnfit = 12,
}

// The number that document 01 gives a reason.
pub fn number_of(reason: Reason) -> u8
    ensures { result ≡ number_of reason }
{
    reason as u8
}
