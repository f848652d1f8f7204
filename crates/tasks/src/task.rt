// One task of an order: its weight and its name.
use crate::name::Name;

#[derive(Clone, Copy, Drop)]
pub struct Task {
    pub weight: u8,
    pub name: Name,
}

impl Task {
    // What an entry holds that is not in use.
    pub const NONE: Task = Task {
        weight: 1,
        name: Name::NONE,
    };
}
