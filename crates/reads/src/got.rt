// What a get comes to.
ghost use Rattle.std.specs.Prelude.{◌≡◌, ◌≤◌};
ghost use Rattle.spec.specs.Area.{entry_at};

use area::entry_at;
use session::Good;
use spec::Shape;

// What a get tells, and the shape of the set that it reads.
#[derive(Clone, Copy)]
pub struct Got {
    pub good: Good,
    pub shape: Shape,
    pub ghost read: { 1 ≤ good.at },
}

impl Got {
    // The entry that it reads.
    pub fn entry<'a>(&self, area: &'a [u16]) -> &'a [u16]
        ensures { result.now ≡ entry_at self.now.shape area.now self.now.good.at }
    {
        entry_at(area, self.shape, self.good.at)
    }
}
