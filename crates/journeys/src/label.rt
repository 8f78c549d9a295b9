ghost use Rattle.std.specs.Prelude.{◌≡◌};

// How a label came to its stop: `from` is the place in the store of the label that it came from. (A place and no
// reference: there is no heap, and the store is still being written.)
#[derive(Clone, Copy, Debug, PartialEq, Eq)]
pub enum Way {
    Origin,
    Walked { path: usize, from: usize },
    Rode { first: u32, last: u32, from: usize },
}

// A part journey that the scan has found: where it has come to, when, with how many rides and at
// which fare. S is the make of fare states. (What is looked at in most labels stands first.)
#[derive(Clone, Copy, Debug, PartialEq, Eq)]
pub struct Label<S> {
    pub stop: u32,
    pub time: u32,
    pub rides: u32,
    pub way: Way,
    pub state: S,
}

impl<S: Copy> Label<S> {
    // A journey that begins at a stop, before any ride.
    pub fn at_origin(stop: u32, time: u32, state: S) -> Label<S>
        ensures { result ≡ record { stop = stop; time = time; rides = 0; state = state; way = Way.Origin } }
    {
        Label {
            stop,
            time,
            rides: 0,
            way: Way::Origin,
            state,
        }
    }
}

// One of those aboard a trip: the fare so far, the label that boarded, and the hop at which it did (by their places, as in
// `Way`).
#[derive(Clone, Copy, Debug, PartialEq, Eq)]
pub struct Passenger<S> {
    pub state: S,
    pub label: usize,
    pub first: u32,
}
