// What the table of built-in functions says of each.
use crate::native::{Conversion, Native};

/// How a native is called, which says what stands ahead of its arguments.
#[derive(Clone, Copy, Debug, PartialEq, Eq)]
pub enum Called {
    /// As a function. Its `this` doesn't count.
    Function,
    /// As a function, and `new` may stand before it.
    Constructor,
    /// As a method. Its receiver counts, and becomes this.
    Method(Conversion),
}

/// How many arguments a native takes.
#[derive(Clone, Copy, Debug, PartialEq, Eq)]
pub enum Taken {
    /// Those that its row lists. One that is missing is undefined.
    Listed,
    /// Those that its row lists, as far as they are handed over.
    AtMost,
    /// All that are handed over. Those behind the ones that its row lists become this.
    All(Conversion),
}

/// What a native goes over before it works, for one unit of fuel each.
#[derive(Clone, Copy, Debug, PartialEq, Eq)]
pub enum Walk {
    Nothing,
    /// Each value that is handed to it, surplus ones too.
    Values,
    /// Each value behind its receiver.
    Arguments,
    /// The units of the texts among its values.
    Texts,
    /// Each place of the first text, with the one behind its end, beside each of the second, which is looked for in it;
    /// for a pattern the units of the texts, since its searches have costs of their own.
    Search,
    /// The units of its values, each as a text.
    Units,
    /// Each place of the text of its first value, with the one behind its end, beside each of the pattern behind it.
    Pattern,
    /// The names that `Object.keys` lists.
    Keys,
    /// The elements of its receiver, and the arguments.
    Elements,
    /// The elements of all arrays among its values, and the arguments.
    AllElements,
    /// What the rule of the native itself says.
    Own,
}

/// A row of the table: the native, the name by which a fault speaks of it, how it is called, what its arguments become
/// in their order, how many of them it takes, and its walk. (It is a tuple because clauses can't see a constant of a
/// struct that holds references.)
pub type NativeRow = (
    Native,
    &'static str,
    Called,
    &'static [Conversion],
    Taken,
    Walk,
);
