ghost use Rattle.std.specs.Prelude.{◌≡◌, true, [], None, Some};
ghost use Rattle.timetable.specs.Rule.{keeps};
ghost use Rattle.timetable.specs.Table.{last_after, trips_upto, open_list, told, left, meant, Opened};

use crate::hops::Hop;
use crate::refusals::Refusal;
use crate::rule::first_break;
use crate::tables::{MOST_HOPS, Timetable, held};

// A list of hops that stands for itself.
#[derive(Drop)]
pub struct HopList<'a> {
    hops: &'a [Hop],
    ghost kept: { keeps hops.now ≡ true },
}

impl<'a> HopList<'a> {
    // A list of no hops, to be opened over others.
    pub fn empty() -> HopList<'a>
        ensures { result.hops.now ≡ [] }
    {
        HopList { hops: &[] }
    }

    // A list of hops that keep the timetable rule.
    pub fn over(hops: &'a [Hop]) -> Result<HopList<'a>, Refusal>
        ensures answer { meant (λ l. l.hops.now) result ≡ open_list hops.now }
        ensures rule { Opened hops.now result }
    {
        match first_break(hops) {
            Some(place) => Err(Refusal::BrokenRule(place)),
            None => Ok(HopList { hops }),
        }
    }

    // Stands for the hops from now on if they keep the timetable rule; else it is left as it was.
    pub fn open(&mut self, hops: &'a [Hop]) -> Result<(), Refusal>
        ensures answer { result ≡ told (open_list hops.now) }
        ensures list { self.new.hops.now ≡ left self.old.hops.now (open_list hops.now) }
        ensures rule { Opened hops.now result }
    {
        *self = HopList::over(hops)?;
        Ok(())
    }
}

impl<'a> Timetable for HopList<'a> {
    ghost hops = { λ l. l.hops.now };

    ghost rule = { λ l. l.kept };

    fn count(&self) -> u32 {
        held(self.hops.len())
    }

    fn trips(&self) -> u32 {
        held(trips_in(self.hops))
    }

    fn hop(&self, place: u32) -> Option<Hop> {
        if place >= MOST_HOPS {
            return None;
        }
        self.hops.get(place as usize).copied()
    }
}

fn trips_through(last: Hop) -> usize
    ensures { result ≡ trips_upto (Some last) }
{
    last.trip as usize + 1
}

// One more than the number of the last trip; trips are numbered from 0 without a gap.
fn trips_in(hops: &[Hop]) -> usize
    ensures { result ≡ trips_upto (last_after None hops.now) }
{
    hops.last().copied().map_or(0, trips_through)
}
