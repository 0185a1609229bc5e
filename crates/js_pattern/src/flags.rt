// Flags.

/// How a pattern is to be used (ECMA-262 5.1, section 15.10.7): `g`, `i` and `m`.
#[derive(Clone, Copy, Debug, PartialEq, Eq)]
pub struct Flags {
    /// Whether all matches are looked for, one behind the other. A single search doesn't ask for it.
    pub global: bool,
    /// Whether ASCII letters are compared without case.
    pub ignore_case: bool,
    /// Whether `^` and `$` stand at line terminators too.
    pub multiline: bool,
}
