// Laws over the definition of reading.
ghost use Rattle.js_law_room.specs.Laws.{MoreRoomChangesNothing, NoLimitIsMet};

/// Tokens that aren't refused as TooDeep are read, or refused, as they are with more room for nesting.
pub fn more_room_changes_nothing()
    ensures { MoreRoomChangesNothing }
{}

/// Reading without the limit of nesting refuses nothing as TooDeep.
pub fn no_limit_is_met()
    ensures { NoLimitIsMet }
{}
