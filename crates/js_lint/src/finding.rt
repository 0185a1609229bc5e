// Findings.
use crate::Advice;
use js_tree::Place;
use utf16_text::{List, Text};

/// Findings, in the order in which they are written in the script.
pub type FindingList = List<Finding>;

/// One use of what this language hasn't, or what can't be meant.
#[derive(Drop)]
pub struct Finding {
    /// Where it stands: the place of the name, of the text, of the `.` before a property, or of the word `function`.
    pub place: Place,
    /// The global object whose property it is, as `Math` of `Math.random`; none where the name says enough.
    pub object: Option<Text>,
    /// A name, or the text that can't be meant. That of a function without a name is `function`.
    pub name: Text,
    /// What to write instead.
    pub advice: Advice,
}
