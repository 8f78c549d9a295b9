use journeys::Leg;
use planner::{Answer, MOST_LEGS};
use sheet::SHEET_BYTES;

/// A worked case that asks a question about the ferry's network.
#[derive(Clone, Copy, Debug, PartialEq, Eq)]
pub enum AskingCase {
    /// More room than the question needs.
    RoomToSpare,
    /// Just as many places for labels as it needs.
    SixLabels,
    /// One place for labels too few.
    FiveLabels,
    /// Just as many places for those aboard as it needs.
    TwoAboard,
    /// One place for those aboard too few.
    OneAboard,
    /// One ride, where two are needed.
    OneRide,
    /// To the harbour in between.
    HalfWay,
    /// To where it begins.
    ToTheOrigin,
    /// After the trip that leads inland was cancelled.
    LandTripCancelled,
    /// After the first ferry was delayed, by as much as leaves the second.
    FerryJustCaught,
    /// After it was delayed by a second more.
    FerryMissed,
}

/// A worked case that reads bytes which are no sheet.
#[derive(Clone, Copy, Debug, PartialEq, Eq)]
pub enum ReadingCase {
    /// A row whose price has a last byte of zero.
    PriceOfZero,
    /// A byte behind the last row.
    ByteLeftOver,
}

/// What was printed for a case: as many bytes and legs in front as the answer says.
#[derive(Drop)]
pub struct Printed {
    pub answer: Answer,
    pub sheet: [u8; SHEET_BYTES],
    pub legs: [Leg; MOST_LEGS],
}
