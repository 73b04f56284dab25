//! Whether two trees say the same, wherever they stand in their texts; and two lists or options of them.

mod expr;
mod item;
mod line;
mod stmt;

ghost use Rattle.std.specs.Prelude.{◌≡◌, ◌↔◌, IsTrue};

/// What may stand at different places and say the same.
pub trait Same {
    // what it says
    ghost Meaning: { Type 0 };

    ghost meaning: { Self → Meaning };

    /// Whether both say the same.
    fn same(&self, other: &Self) -> bool
        ensures { IsTrue result ↔ (meaning self.now ≡ meaning other.now) };
}

impl<T: Same> Same for Vec<T> {
    ghost use Rattle.std.specs.Prelude.{List, map};

    ghost Meaning = { List T.Meaning };

    ghost meaning = { λ xs. map T.meaning xs.items };

    fn same(&self, other: &Vec<T>) -> bool {
        if self.len() != other.len() {
            return false;
        }
        for (i, item) in self.iter().enumerate() {
            if !item.same(&other[i]) {
                return false;
            }
        }
        true
    }
}

impl<T: Same> Same for Option<T> {
    ghost use Rattle.std.specs.Prelude.{Option, option_map};

    ghost Meaning = { Option T.Meaning };

    ghost meaning = { option_map T.meaning };

    fn same(&self, other: &Option<T>) -> bool {
        match (self, other) {
            (None, None) => true,
            (Some(a), Some(b)) => a.same(b),
            _ => false,
        }
    }
}
