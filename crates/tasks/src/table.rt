// The task table: the tasks of an order, in the order of their numbers.
ghost use Rattle.std.specs.Prelude.{◌≡◌, ◌≤◌, true, length};
ghost use Rattle.tasks.specs.Rows.{rows_of, sound};

use crate::entries::Entries;

// Only the first `count` entries are tasks, for the memory is fixed: each has a weight and a name as an order may have, and no two share a name.
#[derive(Drop)]
pub struct TaskTable {
    pub(crate) entries: Entries,
    pub(crate) count: usize,
    ghost size: { length entries.tasks ≡ 64 },
    ghost room: { count ≤ 64 },
    ghost sound: { sound (rows_of entries count) ≡ true },
}
