use fares::Gauges;
use rule_table::{Refusal, Rule, RuleTable};

const EVERY_EVENT: u16 = 0xffff;

pub(crate) const NIGHT: u8 = 2;

pub(crate) fn gauges(metres: u32, zones: u32) -> Gauges {
    Gauges {
        metres,
        stops: 0,
        zones,
        level: 0,
    }
}

pub(crate) fn rule(ticket: u8, target: u8, events: u16, minima: Gauges) -> Rule {
    Rule {
        ticket,
        target,
        events,
        minima,
    }
}

// Three tickets: the second and the third from these gauges on, at every event.
pub(crate) fn table(second: Gauges, third: Gauges) -> Result<RuleTable, Refusal> {
    let rules = [
        rule(0, 1, EVERY_EVENT, second),
        rule(0, 2, EVERY_EVENT, third),
        rule(1, 2, EVERY_EVENT, third),
    ];
    RuleTable::open(&[200, 300, 450], &rules, [0; 4])
}
