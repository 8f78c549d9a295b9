ghost use Rattle.std.specs.Prelude.{◌≡◌, take};

// The first things of a list, or all where they are fewer.
pub(crate) fn front_of<T>(list: &[T], count: usize) -> &[T]
    ensures { result.now ≡ take count list.now }
{
    &list[..count.min(list.len())]
}
