// A ticket of the tariff below, and whether the surcharge is on it.
#[derive(Clone, Copy, Debug, PartialEq, Eq)]
pub struct Marked<K> {
    pub below: K,
    pub marked: bool,
}
