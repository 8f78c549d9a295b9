use crate::given::{NIGHT, gauges, rule, table};
use fares::{Ladder, Measure, Surcharge, Tariff, change, start, update};
use measures::Zones;
use rule_table::{Refusal, Rule, RuleTable};
use std::test::Fail;

const FIRST_CLASS: u8 = 3;

fn ferry_table() -> Result<RuleTable, Refusal> {
    table(gauges(0, 2), gauges(0, 3))
}

#[test]
fn free_tickets_cover_all_from_themselves_on(rt: HostRuntime) -> Result<(), Fail> {
    let table = ferry_table()?;
    for k in 0..3u8 {
        for l in 0..4u8 {
            assert_eq!(rt; table.is_covering(k, l), k <= l && l < 3);
        }
    }
    Ok(())
}

// Two ways on from ticket 0 and none between them: it is not free. It is fixed if no gauge makes a difference.
#[test]
fn fixed_tickets_cover_themselves_and_others_none(rt: HostRuntime) -> Result<(), Fail> {
    let apart = [
        rule(0, 1, 1 << NIGHT, gauges(0, 0)),
        rule(0, 2, 1 << FIRST_CLASS, gauges(0, 0)),
    ];
    let fixed = RuleTable::open(&[200, 300, 450], &apart, [0; 4])?;
    assert!(rt; fixed.is_covering(0, 0));
    assert!(rt; !fixed.is_covering(0, 1));
    let by_zones = [
        rule(0, 1, 1 << NIGHT, gauges(0, 2)),
        rule(0, 2, 1 << FIRST_CLASS, gauges(0, 0)),
    ];
    let neither = RuleTable::open(&[200, 300, 450], &by_zones, [0; 4])?;
    assert!(rt; !neither.is_covering(0, 0));
    assert!(rt; neither.is_covering(1, 1));
    Ok(())
}

fn refusal(prices: &[u32], rules: &[Rule], start: u8) -> Option<Refusal> {
    RuleTable::open(prices, rules, [0, 0, 0, start]).err()
}

#[test]
fn tables_are_refused_past_each_limit(rt: HostRuntime) {
    let up = rule(0, 1, 0, gauges(0, 0));
    assert_eq!(rt; refusal(&[], &[], 0), Some(Refusal::Rest));
    assert_eq!(rt; refusal(&[100; 32], &[up; 128], 31), None);
    assert_eq!(rt; refusal(&[100; 33], &[up], 0), Some(Refusal::Rest));
    assert_eq!(rt; refusal(&[100; 32], &[up; 129], 0), Some(Refusal::Rest));
    assert_eq!(rt; refusal(&[100, 100], &[up], 2), Some(Refusal::Rest));
    assert_eq!(rt; refusal(&[100, 9_999_999], &[up], 1), None);
    assert_eq!(rt; refusal(&[100, 10_000_000], &[up], 1), Some(Refusal::Rest));
    assert_eq!(rt;
        refusal(&[100, 100], &[up, rule(1, 1, 0, gauges(0, 0))], 0),
        Some(Refusal::BadRule { place: 1 })
    );
    assert_eq!(rt;
        refusal(&[100, 100], &[rule(1, 2, 0, gauges(0, 0)), up], 0),
        Some(Refusal::BadRule { place: 0 })
    );
    assert_eq!(rt;
        refusal(&[100, 99], &[up], 0),
        Some(Refusal::BadRule { place: 0 })
    );
}

#[test]
fn a_surcharge_is_held_at_the_highest_price(rt: HostRuntime) -> Result<(), Fail> {
    let table = RuleTable::open(&[9_900_000, 9_900_001], &[], [0, 1, 0, 0])?;
    let night = Surcharge::open(table, NIGHT, 99_999)?;
    let none = gauges(0, 0);
    assert_eq!(rt;
        night.price(night.next(night.start(0), none, NIGHT)),
        9_999_999
    );
    assert_eq!(rt;
        night.price(night.next(night.start(1), none, NIGHT)),
        9_999_999
    );
    assert_eq!(rt; night.price(night.next(night.start(1), none, 0)), 9_900_001);
    Ok(())
}

// Three hops from a stop of zone 0, with a change before the last; then what the ferry's table asks, what a ladder of
// 100 and 50 cents asks, and what 75 cents more at night make of the ladder.
struct Example {
    zones: [u8; 3],
    event: u8,
    ferry: u32,
    ladder: u32,
    at_night: u32,
}

const EXAMPLES: [Example; 4] = [
    Example {
        zones: [0, 0, 0],
        event: 0,
        ferry: 200,
        ladder: 100,
        at_night: 100,
    },
    Example {
        zones: [1, 0, 1],
        event: 0,
        ferry: 300,
        ladder: 150,
        at_night: 150,
    },
    Example {
        zones: [1, 2, 0],
        event: NIGHT,
        ferry: 450,
        ladder: 200,
        at_night: 275,
    },
    Example {
        zones: [1, 2, 63],
        event: FIRST_CLASS,
        ferry: 450,
        ladder: 250,
        at_night: 250,
    },
];

fn fare<F: Tariff>(tariff: &F, zones: &[u8; 3], event: u8) -> u32 {
    let measure = Zones {};
    let mut state = start(tariff, &measure, 0, 0);
    state = update(
        tariff,
        &measure,
        state,
        measure.hop(500, 0, zones[0]),
        event,
    );
    state = update(tariff, &measure, state, measure.hop(500, 0, zones[1]), 0);
    state = change(tariff, &measure, state);
    state = update(tariff, &measure, state, measure.hop(500, 0, zones[2]), 0);
    tariff.price(state.ticket)
}

#[test]
fn worked_fares(rt: HostRuntime) -> Result<(), Fail> {
    let ferry = ferry_table()?;
    let ladder = Ladder::open(100, 50)?;
    let at_night = Surcharge::open(ladder, NIGHT, 75)?;
    for example in &EXAMPLES {
        assert_eq!(rt; fare(&ferry, &example.zones, example.event), example.ferry);
        assert_eq!(rt;
            fare(&ladder, &example.zones, example.event),
            example.ladder
        );
        assert_eq!(rt;
            fare(&at_night, &example.zones, example.event),
            example.at_night
        );
    }
    Ok(())
}
