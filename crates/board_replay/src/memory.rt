ghost use Rattle.std.specs.Prelude.{◌≡◌, replicate, IfOk};
ghost use Rattle.fares.specs.FareStates.{start_state};
ghost use Rattle.board_replay.specs.Boards.{blank_memory};
ghost use Rattle.board_replay.specs.Memories.{memory_in};

use case_lines::Room;
use fares::{FareState, LawfulMeasure, LawfulTariff, Measure, Tariff, start};
use journeys::{Leg, LegKind, Passenger, Stop};
use scan::StoredLabel;
use std::alloc::{AllocError, Global};

const NOWHERE: Stop = Stop { zone: 0, class: 0 };

const NO_LEG: Leg = Leg {
    row: 0,
    kind: LegKind::Walk,
    first: 0,
    last: 0,
};

// The room that a board has where nothing is said of it.
pub(crate) const USUAL_ROOM: Room = Room {
    labels: 4096,
    aboard: 256,
    bytes: 225,
    legs: 544,
};

// The memory that a board's questions are lent.
#[derive(Drop)]
pub(crate) struct Memory<S> {
    pub(crate) labels: Vec<StoredLabel<S>>,
    pub(crate) aboard: Vec<Passenger<S>>,
    pub(crate) sheet: Vec<u8>,
    pub(crate) legs: Vec<Leg>,
}

// So many places, all of them blank.
fn blank<T: Copy>(alloc: Global, places: u32, value: T) -> Result<Vec<T>, AllocError>
    ensures { IfOk result (λ v. v.items ≡ replicate places value) }
{
    let mut blank = Vec::with_capacity(alloc, places as usize)?;
    for _ in 0..places {
        blank.push(value)?;
    }
    Ok(blank)
}

impl<S: Copy> Memory<S> {
    pub(crate) fn new(alloc: Global, room: &Room, state: S) -> Result<Memory<S>, AllocError>
        ensures { IfOk result (λ m. memory_in m ≡ blank_memory room.now state) }
    {
        let passenger = Passenger {
            state,
            label: 0,
            first: 0,
        };
        Ok(Memory {
            labels: blank(alloc, room.labels, StoredLabel::blank(state))?,
            aboard: blank(alloc, room.aboard, passenger)?,
            sheet: blank(alloc, room.bytes, 0)?,
            legs: blank(alloc, room.legs, NO_LEG)?,
        })
    }
}

// What a blank place holds of a fare.
pub(crate) fn blank_state<F: LawfulTariff, M: LawfulMeasure>(
    tariff: &F,
    measure: &M,
) -> FareState<F::Ticket, M::Weight>
    ensures { result ≡ start_state (F.Tariff.model tariff.now) (M.Measure.model measure.now) 0 0 }
{
    start(tariff, measure, 0, 0)
}
