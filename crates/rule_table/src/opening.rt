ghost use Rattle.std.specs.Prelude.{◌≡◌, IfErr, Some};
ghost use Rattle.rule_table.specs.OpenedTables.{parts_of};
ghost use Rattle.rule_table.specs.Refusals.{meant};
ghost use Rattle.rule_table.specs.RuleTables.{table_opened, table_refusal};

use crate::cover::cover_masks;
use crate::limits::{check_rest, check_rules};
use crate::refusal::Refusal;
use crate::rule::Rule;
use crate::span::spans_of;
use crate::table::RuleTable;
use crate::threshold::thresholds_of;
use fares::Gauges;
use short_list::ShortList;

impl RuleTable {
    pub fn open(prices: &[u32], rules: &[Rule], starts: [u8; 4]) -> Result<RuleTable, Refusal>
        ensures opened { meant parts_of result ≡ table_opened prices.now rules.now starts }
        ensures refusal { IfErr result (λ e. table_refusal prices.now rules.now starts ≡ Some e) }
    {
        check_rest(prices, rules, &starts)?;
        check_rules(prices, rules)?;
        let blank = Rule {
            ticket: 0,
            target: 0,
            events: 0,
            minima: Gauges::lowest(),
        };
        Ok(RuleTable {
            prices: ShortList::copy_of(0, prices).ok_or(Refusal::Rest)?,
            rules: ShortList::copy_of(blank, rules).ok_or(Refusal::Rest)?,
            starts,
            covered: cover_masks(prices.len() as u8, rules),
            spans: spans_of(rules),
            thresholds: thresholds_of(rules),
        })
    }
}
