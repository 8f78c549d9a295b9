use service_day::Day;

// The planner of one board: a timetable as it is on this day, a tariff and a measure.
#[derive(Drop)]
pub struct Planner<T, F, M> {
    pub(crate) day: Day<T>,
    pub(crate) tariff: F,
    pub(crate) measure: M,
}
