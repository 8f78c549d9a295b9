ghost use Rattle.std.specs.Prelude.{◌≡◌, ◌≤◌, ◌++◌, [], ◌∷◌, Bool, length, filter, nat_le, nat_lt, if◌then◌else◌, option_map, slice_set};
ghost use Rattle.std.specs.Fn.{FnReturnsAt};
ghost use Rattle.short_list.specs.Items.{items};

use crate::list::ShortList;

impl<X: Copy, const N: usize> ShortList<X, N> {
    // The blank only fills the places that are not used.
    pub fn empty(blank: X) -> ShortList<X, N>
        ensures { items result ≡ [] }
    {
        ShortList {
            places: [blank; N],
            used: 0,
        }
    }

    // A copy of the list, where it has at most N entries.
    pub fn copy_of(blank: X, list: &[X]) -> Option<ShortList<X, N>>
        ensures { option_map items result ≡ (if nat_le (length list.now) N then Some list.now else None) }
    {
        if list.len() > N {
            return None;
        }
        let mut places = [blank; N];
        places[..list.len()].copy_from_slice(list);
        Some(ShortList {
            places,
            used: list.len(),
        })
    }

    pub fn as_slice(&self) -> &[X]
        ensures { result.now ≡ items self.now }
    {
        &self.places[..self.used]
    }

    pub fn len(&self) -> usize
        ensures { result ≡ length (items self.now) }
    {
        self.as_slice().len()
    }

    // Puts the item behind the others, where a place is left.
    pub fn push(&mut self, item: X) -> Option<()>
        ensures result { result ≡ (if nat_lt (length (items self.old)) N then Some tt else None) }
        ensures items { items self.new ≡ (if nat_lt (length (items self.old)) N then items self.old ++ item ∷ [] else items self.old) }
    {
        if self.used == N {
            return None;
        }
        self.places[self.used] = item;
        self.used += 1;
        Some(())
    }

    // Puts the item in the place of another, where there is one.
    pub fn set(&mut self, place: usize, item: X) -> Option<()>
        ensures result { result ≡ (if nat_lt place (length (items self.old)) then Some tt else None) }
        ensures items { items self.new ≡ (if nat_lt place (length (items self.old)) then slice_set (items self.old) place item else items self.old) }
    {
        if place >= self.used {
            return None;
        }
        self.places[place] = item;
        Some(())
    }

    // Takes out all entries but those that pass the test, and keeps their order.
    pub fn retain<F: Fn(&X) -> bool>(&mut self, keep: F)
        requires { F.IsAlwaysCallable keep }
        ensures { (test : X → Bool) → ((x : X) (b : Bool) → FnReturnsAt F.Fn keep x b → b ≡ test x) → items self.new ≡ filter test (items self.old) }
    {
        let mut kept = 0;
        for place in 0..self.used {
            let item = self.places[place];
            if keep(&item) {
                self.places[kept] = item;
                kept += 1;
            }
        }
        self.used = kept;
    }
}
