#![tactic(auto)]
// Four stops and two crossings, each by ferry or the cheaper way: asks for the best connections, and
// prints their sheet and then the legs.
mod shown;

use ferry_cases::{AskingCase, Printed, run_case};
use sheet::SHEET_BYTES;
use shown::{Hex, LegLine};

fn run(rt: &impl Print) -> anyhow::Result<()> {
    let Printed {
        answer,
        sheet,
        legs,
    } = run_case(AskingCase::RoomToSpare)?;
    rt.println(Hex(&sheet[0..answer.bytes.min(SHEET_BYTES)]))?;
    for leg in legs.iter().take(answer.legs) {
        rt.println(LegLine(leg))?;
    }
    Ok(())
}

fn main(rt: HostRuntime) -> anyhow::Result<()> {
    run(&rt)
}
