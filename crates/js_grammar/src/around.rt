// What stands around a statement.

/// What a statement may be depends on what stands around it (ECMA-262 5.1, sections 12.7 to 12.9 and 14).
#[derive(Clone, Copy, Debug, PartialEq, Eq)]
pub struct Around {
    /// Whether it stands directly in the script or in a function's body.
    pub direct: bool,
    /// Whether it stands in a function.
    pub in_function: bool,
    /// Whether it stands in a loop, in the same function.
    pub in_loop: bool,
    /// Whether it stands in a loop or a `switch`, in the same function.
    pub breakable: bool,
}
