// What is asked from the other language.
use crate::rows::{Row, Setup, Step};
use std::alloc::Global;

// The parts that are chosen, two tables of estimates, the calls, and where their answers go.
#[derive(Drop)]
pub(crate) struct Request<'a> {
    pub(crate) heap: Global,
    pub(crate) setup: &'a Setup,
    pub(crate) first: &'a [u32],
    pub(crate) second: &'a [u32],
    pub(crate) steps: &'a [Step],
    pub(crate) rows: &'a mut [Row],
}
