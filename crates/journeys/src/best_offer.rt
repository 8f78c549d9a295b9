// An offer that no other beats, with the place of the first label that has it (a place, as in `Way`).
#[derive(Clone, Copy, Debug, PartialEq, Eq)]
pub struct BestOffer {
    pub arrival: u32,
    pub price: u32,
    pub label: usize,
}
