// A stop, by the zone it lies in and the class at which a fare starts there.
#[derive(Clone, Copy, Debug, Default, PartialEq, Eq)]
pub struct Stop {
    pub zone: u8,
    pub class: u8,
}

// A way on foot from one stop to another.
#[derive(Clone, Copy, Debug, PartialEq, Eq)]
pub struct Footpath {
    pub from: u32,
    pub to: u32,
    pub seconds: u32,
}

// The stops, numbered from 0, and the footpaths between them.
#[derive(Clone, Copy, Debug, PartialEq, Eq)]
pub struct Network<'a> {
    pub stops: &'a [Stop],
    pub paths: &'a [Footpath],
}
