// How much of each list an answered question has written.
#[derive(Clone, Copy, Debug, PartialEq, Eq)]
pub struct Answer {
    pub rows: usize,
    pub labels: usize,
    pub bytes: usize,
    pub legs: usize,
}
