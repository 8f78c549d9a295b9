ghost use Rattle.std.specs.Prelude.{◌≡◌};

use crate::link::Link;
use journeys::Label;

// A label in a place of a store, and the place of the next label in its stop's slot: the next at its stop, where there are no more
// stops than a network may have. (What is looked at in most labels comes first: the link here, the stop, the time and the rides in
// a label.)
#[derive(Clone, Copy, Debug, PartialEq, Eq)]
pub struct StoredLabel<S> {
    pub next: Link,
    pub label: Label<S>,
}

impl<S: Copy> StoredLabel<S> {
    ghost use Rattle.scan.specs.Chains.{blank_label};

    // What a place holds before a label is written there.
    pub fn blank(state: S) -> StoredLabel<S>
        ensures { result ≡ blank_label state }
    {
        StoredLabel {
            next: Link::NONE,
            label: Label::at_origin(0, 0, state),
        }
    }
}
