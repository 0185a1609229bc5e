// Ends that pass what would come next.

/// How a part of a run ends, where it doesn't give a value: what ECMA-262 5.1, section 8.9, calls an abrupt completion.
/// A value is thrown or returned; a break or a continue goes to its target. What is thrown may say more than a
/// value, as where it was thrown.
#[derive(Drop)]
pub enum Abrupt<Cause, Value, Target> {
    Thrown(Cause),
    Returned(Value),
    Broken(Target),
    Continued(Target),
}
