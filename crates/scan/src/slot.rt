ghost use Rattle.std.specs.Prelude.{◌≡◌, ◌<◌};
ghost use Rattle.scan.specs.Chains.{slot as slot_of, slots};

// As many as a network may have stops: each of these has a slot of its own.
pub(crate) const SLOTS: usize = 4_096;

// The slot of a stop.
pub(crate) fn slot(stop: u32) -> usize
    ensures is { result ≡ slot_of stop }
    ensures within { result < slots }
{
    stop as usize % SLOTS
}
