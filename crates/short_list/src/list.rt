ghost use Rattle.std.specs.Prelude.{◌≡◌, ◌≤◌, ⊤};

use std::alloc::AllocError;

// The first `used` of N places: there is no heap, so a list that grows has its places and its count in it.
// What the other places hold means nothing, so lists are compared by `as_slice`, and there is no `==`.
pub struct ShortList<X, const N: usize> {
    pub(crate) places: [X; N],
    pub(crate) used: usize,
    ghost fits: { used ≤ N },
}

// By hand: with a derive on a type with a parameter and a ghost field, the proof did not close.
impl<X: Copy, const N: usize> Clone for ShortList<X, N> {
    ghost is_clone = { λ list copy. copy ≡ list };

    ghost is_infallible = { λ _. ⊤ };

    fn clone(&self) -> Result<ShortList<X, N>, AllocError> {
        Ok(*self)
    }
}

impl<X: Copy, const N: usize> Copy for ShortList<X, N> {}
