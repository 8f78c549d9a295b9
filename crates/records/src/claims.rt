ghost use Rattle.std.specs.Prelude.{◌≡◌, ◌++◌, OnOk, OnErr};
ghost use Rattle.records.specs.Records.{claim_record, is_claim_met, ClaimIsTold};

use crate::front::front_of;
use day_planner::{Refusal, Reply};
use std::alloc::AllocError;

// Writes the line of a claimed sheet.
#[tactic(auto, using(crate::proofs::Telling::claim_told))]
pub fn write_claim(
    out: &mut Vec<u8>,
    reply: Result<Reply, Refusal>,
    sheet: &[u8],
    claimed: &[u8],
) -> Result<(), AllocError>
    ensures record { OnOk result (out.new.items ≡ out.old.items ++ claim_record reply sheet.now claimed.now) }
    ensures told { ClaimIsTold reply sheet.now claimed.now (claim_record reply sheet.now claimed.now) }
    ensures kept { OnErr result (out.new.items ≡ out.old.items) }
{
    if is_claim_met(reply, sheet, claimed) {
        out.extend_from_slice(b"same\n")
    } else {
        out.extend_from_slice(b"differs\n")
    }
}

// Whether the claimed bytes are the sheet of the reply, as a refused question has none.
fn is_claim_met(reply: Result<Reply, Refusal>, sheet: &[u8], claimed: &[u8]) -> bool
    ensures { result ≡ is_claim_met reply sheet.now claimed.now }
{
    match reply {
        Ok(Reply::Answered(answer)) => front_of(sheet, answer.bytes) == claimed,
        _ => false,
    }
}
