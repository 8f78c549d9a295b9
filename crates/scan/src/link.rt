ghost use Rattle.std.specs.Prelude.{◌≡◌, ◌<◌, Some, None};
ghost use Rattle.scan.specs.Links.{link, place_of};

// The place of a label, or none. It is half as large as an `Option`: each label that is stored has one, and each slot two.
#[derive(Clone, Copy, Debug, PartialEq, Eq)]
pub struct Link {
    // one more than the place, or 0 for none
    code: usize,
}

impl Link {
    pub(crate) const NONE: Link = Link { code: 0 };

    pub(crate) fn to(place: usize) -> Link
        requires follows { place < 18446744073709551615 }
        ensures { result ≡ link (Some place) }
    {
        Link { code: place + 1 }
    }

    // The place that it stands for.
    pub fn place(self) -> Option<usize>
        ensures { result ≡ place_of self }
    {
        if self.code == 0 {
            None
        } else {
            Some(self.code - 1)
        }
    }
}
