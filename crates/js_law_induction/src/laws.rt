// A law over the definition of reading.
ghost use Rattle.js_law_induction.specs.Laws.{NothingIsGivenBack};

/// Reading a statement leaves no more tokens than there were.
pub fn nothing_is_given_back()
    ensures { NothingIsGivenBack }
{}
