// What stands around the parts of statements.
ghost use Rattle.std.specs.Prelude.{◌≡◌};
ghost use Rattle.js_grammar.specs.Expressions.{in_function};
ghost use Rattle.js_grammar.specs.Statements as spec;

use js_grammar::Around;

/// Around the statements of a script.
pub fn at_top() -> Around
    ensures { result ≡ spec.at_top }
{
    Around {
        direct: true,
        in_function: false,
        in_loop: false,
        breakable: false,
    }
}

/// Around the statements of a function's body.
pub fn in_function() -> Around
    ensures { result ≡ in_function }
{
    Around {
        direct: true,
        in_function: true,
        in_loop: false,
        breakable: false,
    }
}

/// Around a part of a statement that stands there.
pub fn inside(around: Around) -> Around
    ensures { result ≡ spec.inside around }
{
    Around {
        direct: false,
        ..around
    }
}

/// Around the body of a loop that stands there.
pub fn in_loop(around: Around) -> Around
    ensures { result ≡ spec.in_loop around }
{
    Around {
        direct: false,
        in_loop: true,
        breakable: true,
        ..around
    }
}

/// Around the clauses of a `switch` that stands there.
pub fn in_switch(around: Around) -> Around
    ensures { result ≡ spec.in_switch around }
{
    Around {
        direct: false,
        breakable: true,
        ..around
    }
}
