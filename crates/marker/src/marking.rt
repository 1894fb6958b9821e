// One check of one action, in plain numbers.
ghost use Rattle.std.specs.Prelude.{◌≡◌, ◌<◌};
ghost use Rattle.planning.specs.declared.status.Status.TheVariants.{Open};

use planning::status::Status;

#[derive(Clone, Copy, PartialEq, Eq, Debug)]
pub struct Marking {
    pub(crate) status: Status,
    pub(crate) turns: u32,
    pub(crate) limit: u32,
    pub(crate) state: u32,
    pub(crate) action: u16,
    ghost unspent: { status ≡ Open → turns < limit },
}
