use journeys::Leg;

// Where an answer is written to.
#[derive(Drop)]
pub struct Printout<'a> {
    pub sheet: &'a mut [u8],
    pub legs: &'a mut [Leg],
}
