// Classes of units.
ghost use Rattle.std.specs.Prelude.{◌≡◌};
ghost use Rattle.js_pattern.specs.Leaves.{in_set};

use crate::is_word;
use utf16_text::{List, is_digit, is_space};

/// The sets of units that have an escape of their own (ECMA-262 5.1, section 15.10.2.12).
#[derive(Clone, Copy, Debug, PartialEq, Eq)]
pub enum Set {
    /// `\d`.
    Digit,
    /// `\D`.
    NoDigit,
    /// `\w`.
    Word,
    /// `\W`.
    NoWord,
    /// `\s`, white space and line terminators.
    Space,
    /// `\S`.
    NoSpace,
}

impl Set {
    /// Whether the unit is in the set.
    pub fn has(self, unit: u16) -> bool
        ensures { result ≡ in_set self unit }
    {
        match self {
            Set::Digit => is_digit(unit),
            Set::NoDigit => !is_digit(unit),
            Set::Word => is_word(unit),
            Set::NoWord => !is_word(unit),
            Set::Space => is_space(unit),
            Set::NoSpace => !is_space(unit),
        }
    }
}

/// What a class lists.
#[derive(Clone, Copy, Debug, PartialEq, Eq)]
pub enum ClassItem {
    /// The units from the first up to and with the second.
    Range(u16, u16),
    Set(Set),
}

pub type ClassItemList = List<ClassItem>;

/// A class: any unit of its items, or with `^` any other.
#[derive(Drop)]
pub struct Class {
    pub excludes: bool,
    pub items: ClassItemList,
}
