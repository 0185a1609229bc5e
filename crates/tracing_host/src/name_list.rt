// A list of lookup names.
use pac_names::LookupName;
use utf16_text::List;

/// A list of lookup names, in order.
pub type NameList = List<LookupName>;
