// Laws over the definitions of reading.
ghost use Rattle.js_law_places.specs.Laws.{FirstLineIsNotSeen, PlacesArePutAside};

/// A statement is read the same whether or not a line ends before its first token.
pub fn first_line_is_not_seen()
    ensures { FirstLineIsNotSeen }
{}

/// Reading tokens whose places are put aside is reading them, with places put aside.
pub fn places_are_put_aside()
    ensures { PlacesArePutAside }
{}
