// What a look-up finds.
use crate::Value;
use utf16_text::Text;

/// What a look-up by name finds.
#[derive(Drop)]
pub enum Found {
    Value(Value),
    /// No object that was looked at has the property.
    Absent,
    /// The property holds the mark of a built-in that is left out, with the text by which a fault names it.
    LeftOut(Text),
}
