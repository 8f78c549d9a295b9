use crate::cancellations::Cancellations;
use crate::delays::Delays;

// A timetable as it is on one service day: delays over cancellations.
#[derive(Drop)]
pub struct Day<T> {
    pub(crate) layers: Delays<Cancellations<T>>,
}
