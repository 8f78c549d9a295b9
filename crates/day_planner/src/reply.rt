use planner::Answer;

// What an entry that was taken answers. (No `Option`: `Ok(None)` for a cancelled trip is no plainer than `Done`.)
#[derive(Clone, Copy, Debug, PartialEq, Eq)]
pub enum Reply {
    Done,
    Answered(Answer),
}
