/// Where a rider has come to on her way, after a walk or after a hop ridden: when, with how many rides, whether on foot, at
/// which fare, and what she would pay if her journey ended there (0 without a ride). S is the make of fare states.
#[derive(Clone, Copy, Debug, PartialEq, Eq)]
pub struct Step<S> {
    pub stop: u32,
    pub time: u64,
    pub rides: usize,
    pub is_on_foot: bool,
    pub state: S,
    pub price: u32,
}
