ghost use Rattle.std.specs.Prelude.{◌≡◌, ◌≤◌, map, length};
ghost use Rattle.journeys.specs.Runs.{overlay};

use journeys::Full;

// A lent list of which the first places are filled. There is no heap, so the count stands beside the places.
#[derive(Drop)]
pub(crate) struct Filled<'a, X> {
    places: &'a mut [X],
    used: usize,
    ghost fits: { used ≤ length places.now },
}

impl<'a, X: Copy> Filled<'a, X> {
    ghost use Rattle.scan.specs.Filling.{filled, Kept, ran, next_unless};

    // None of these places is filled yet.
    pub(crate) fn over(places: &'a mut [X]) -> Filled<'a, X>
        ensures places { result.places.now ≡ places.old }
        ensures same { result.places.ghost_name ≡ places.entry.ghost_name }
        ensures used { result.used ≡ 0 }
    {
        Filled { places, used: 0 }
    }

    // How many are filled.
    pub(crate) fn len(&self) -> usize
        ensures { result ≡ self.now.used }
    {
        self.used
    }

    // What fills them.
    pub(crate) fn as_slice(&self) -> &[X]
        ensures { result.now ≡ filled self.now }
    {
        &self.places[..self.used]
    }

    // None is filled any more; each holds what it held.
    pub(crate) fn clear(&mut self)
        ensures same { self.new.places.ghost_name ≡ self.old.places.ghost_name }
        ensures places { self.new.places.now ≡ self.old.places.now }
        ensures used { self.new.used ≡ 0 }
    {
        self.used = 0;
    }

    // Fills the next place, unless what is to fill it is covered.
    pub(crate) fn fill_unless(&mut self, covered: bool, next: X, full: Full) -> Result<(), Full>
        ensures run { next_unless covered (length self.old.places.now) full next (filled self.old) ≡ ran result (filled self.new) }
        ensures kept { Kept self.old self.new }
    {
        if covered {
            return Ok(());
        }
        if self.used == self.places.len() {
            return Err(full);
        }
        self.places[self.used] = next;
        self.used += 1;
        Ok(())
    }

    // Changes what fills each place, and not how many are filled.
    pub(crate) fn change_each<C: Fn(X) -> X>(&mut self, change: C)
        requires { C.IsAlwaysCallable change }
        ensures same { self.new.places.ghost_name ≡ self.old.places.ghost_name }
        ensures used { self.new.used ≡ self.old.used }
        ensures places { (g : X → X) → ((x y : X) → C.post change x y → y ≡ g x) → self.new.places.now ≡ overlay (map g (filled self.old)) self.old.places.now }
    {
        for place in &mut self.places[..self.used] {
            *place = change(*place);
        }
    }
}
