//! Which word it is.
//!
//! A program may have many words of one type. A pass of one must not read another. So both carry a name in their types, and a function that
//! uses a word is generic in it. The name is picked where that function is called.
use std::marker::Brand;

/// Names one word: its table, and the front where its history opens.
pub trait WordNaming {
    ghost use Rattle.atomic_table.specs.Seated.{TableId};
    ghost use Rattle.plant_core.specs.declared.front.Front.{Front};

    /// The table that has the word.
    ghost table: { TableId };

    /// The front where its history opens.
    ghost opening: { Front };
}

impl WordNaming for Brand {
    ghost use Rattle.front_word.specs.Fronts.{no_front, no_table};

    ghost table = { no_table };

    ghost opening = { no_front };
}
