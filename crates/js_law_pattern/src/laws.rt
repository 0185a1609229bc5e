// The groups of patterns, and the references to them.
ghost use Rattle.js_law_pattern.specs.Laws.{GroupsAreCounted, ReferencesNameGroups};

/// The groups that are counted before a body is read are those that are read.
pub fn groups_are_counted()
    ensures { GroupsAreCounted }
{}

/// Each reference of a body that is read names a group that it keeps.
pub fn references_name_groups()
    ensures { ReferencesNameGroups }
{}
