// What a report tells of a table that was read.

ghost use Rattle.report.specs.Weights.{Steady};

use extract::{Steps, Stop};

// The literal counts at the start and at the end, the steps and the reason to stop.
#[derive(Clone, Copy)]
pub struct Findings {
    pub start: u64,
    pub steps: Steps,
    pub end: u64,
    pub stop: Stop,
    ghost steady: { Steady steps },
}
