// The events that end a cut run.

/// What a cut run ends with before a step: a place that isn't found, a return that goes elsewhere or finds ebp changed, a stack that is too
/// deep, and an access outside the frame.
#[derive(Clone, Copy, Debug, PartialEq, Eq)]
pub enum GuardEvent {
    Code,
    Return,
    Depth,
    Frame,
}
