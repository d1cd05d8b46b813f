use crate::rows::see;
use batch_summary::{Entry, Outcome, Tally, summary_of};
use std::test::Fail;

const NONE: Tally = Tally {
    normal: 0,
    fault: 0,
    limit: 0,
    diagnosed: 0,
    refused: 0,
    charges: 0,
    bytes: 14,
};

const SUMMARY: &[u8] = b"MADE 7 JOBS 2
NORMAL 1
FAULT 0
LIMIT 0
DIAGNOSED 1
REFUSED 0
CHARGES 9
LISTING BYTES 568
";

#[test]
fn summaries(rt: HostRuntime) -> Result<(), Fail> {
    let diagnosed = Entry {
        outcome: Outcome::Diagnosed,
        charge: 2,
        bytes: 120,
    };
    let normal = Entry {
        outcome: Outcome::Normal,
        charge: 7,
        bytes: 434,
    };
    let Some(sections) = NONE.with(diagnosed).and_then(|t| t.with(normal)) else {
        return Err(Fail::from("no tally"));
    };
    let summary = summary_of(rt.alloc(), 7, 2, &sections)?;
    see(&rt, "a summary", summary.as_slice() == SUMMARY);
    Ok(())
}
