use crate::printed::{BLANK_BYTE, BLANK_LEG, Printed};
use ferry_cases::{QUESTION, STOPS, hops, no_fare, tariff};
use journeys::{Footpath, Leg, Network, Passenger, Question, Stop};
use measures::Zones;
use planner::{Answer, Board, Lent, MOST_LEGS, Printout, Refusal, ask};
use scan::{LabelStore, StoredLabel};
use sheet::SHEET_BYTES;
use std::test::*;
use timetable::{Hop, HopList};

const MOST_LABELS: usize = 64;

const MOST_ABOARD: usize = 16;

// A question with all that it rests on, and how much room there is.
#[derive(Clone, Copy)]
pub(crate) struct Case<'a> {
    pub(crate) stops: [Stop; 4],
    pub(crate) paths: &'a [Footpath],
    pub(crate) hops: [Hop; 5],
    pub(crate) question: Question,
    pub(crate) labels: usize,
    pub(crate) aboard: usize,
    pub(crate) bytes: usize,
    pub(crate) legs: usize,
}

// From harbour to harbour twice: by ferry, or the cheaper way, which takes longer or leads inland.
pub(crate) fn ferry_case<'a>() -> Case<'a> {
    ferry_and(&[])
}

// The same with footpaths.
pub(crate) fn ferry_and<'a>(paths: &'a [Footpath]) -> Case<'a> {
    Case {
        stops: STOPS,
        paths,
        hops: hops(),
        question: QUESTION,
        labels: MOST_LABELS,
        aboard: MOST_ABOARD,
        bytes: SHEET_BYTES,
        legs: MOST_LEGS,
    }
}

impl Case<'_> {
    // Asks over other hops than the case's own.
    pub(crate) fn ask_over(&self, hops: &[Hop]) -> Result<Printed, Fail> {
        let timetable = HopList::over(hops)?;
        let tariff = tariff()?;
        let board = Board {
            timetable: &timetable,
            tariff: &tariff,
            measure: &Zones {},
        };
        let network = Network {
            stops: &self.stops,
            paths: self.paths,
        };
        if self.labels > MOST_LABELS || self.aboard > MOST_ABOARD {
            return Err(Fail::new("more places than there are"));
        }
        if self.bytes > SHEET_BYTES || self.legs > MOST_LEGS {
            return Err(Fail::new("more paper than there is"));
        }
        let mut labels = [StoredLabel::blank(no_fare()); MOST_LABELS];
        let mut aboard = [Passenger {
            state: no_fare(),
            label: 0,
            first: 0,
        }; MOST_ABOARD];
        let mut sheet = [BLANK_BYTE; SHEET_BYTES];
        let mut legs = [BLANK_LEG; MOST_LEGS];
        let store = LabelStore::over(&mut labels[0..self.labels]);
        let out = Printout {
            sheet: &mut sheet[0..self.bytes],
            legs: &mut legs[0..self.legs],
        };
        let mut lent = Lent {
            store,
            aboard: &mut aboard[0..self.aboard],
            out,
        };
        let outcome = ask(&board, &network, &self.question, &mut lent);
        Ok(Printed {
            outcome,
            sheet,
            legs,
        })
    }

    pub(crate) fn ask(&self) -> Result<Printed, Fail> {
        self.ask_over(&self.hops)
    }

    // Asks what has to be answered, with exactly this sheet and these legs.
    pub(crate) fn answer(&self, sheet: &[u8], legs: &[Leg]) -> Result<Answer, Fail> {
        let printed = self.ask()?;
        let answer = printed.outcome?;
        if answer.bytes != sheet.len() || answer.legs != legs.len() {
            return Err(Fail::new("another length"));
        }
        if !printed.shows(sheet, legs) {
            return Err(Fail::new("another sheet or other legs"));
        }
        Ok(answer)
    }

    // Asks what has to be refused, with nothing printed.
    pub(crate) fn refusal(&self) -> Result<Refusal, Fail> {
        let printed = self.ask()?;
        let Err(refusal) = printed.outcome else {
            return Err(Fail::new("answered"));
        };
        if !printed.shows(&[], &[]) {
            return Err(Fail::new("printed at a refusal"));
        }
        Ok(refusal)
    }

    pub(crate) fn is_answered(&self) -> Result<bool, Fail> {
        Ok(self.ask()?.outcome.is_ok())
    }
}
