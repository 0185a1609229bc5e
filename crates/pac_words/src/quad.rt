// Dotted quads and servers in words.

ghost use Rattle.std.specs.Prelude.{◌≡◌, option_map};
ghost use Rattle.pac_words.specs.Values.{cut_at, quad_or, port_of, server_of, server_or, servers_or};

use crate::number::number;
use crate::usual::{LOCAL, USUAL_PORT};
use pac_names::quad_in;
use pac_ports::{Server, Servers};

fn cut_colon(text: &str) -> (&str, Option<&str>)
    ensures { (result.0.now, option_map (λ t. t.now) result.1) ≡ cut_at 58 text.now }
{
    match text.split_once(':') {
        Some((front, rest)) => (front, Some(rest)),
        None => (text, None),
    }
}

fn port(text: Option<&str>) -> Option<u16>
    ensures { result ≡ port_of (option_map (λ t. t.now) text.entry) }
{
    match text {
        None => Some(USUAL_PORT),
        Some(text) => match number(text, 1, 65535) {
            None => None,
            Some(value) => Some(value as u16),
        },
    }
}

fn server(text: &str) -> Option<Server>
    ensures { result ≡ server_of text.now }
{
    let (front, rest) = cut_colon(text);
    let address = quad_in(front.as_bytes())?;
    let port = port(rest)?;
    Some(Server { address, port })
}

/// The quad of an option, and its usual value where it isn't given.
pub(crate) fn quad_or(text: Option<&str>, usual: u32) -> Option<u32>
    ensures { result ≡ quad_or usual (option_map (λ t. t.now) text.entry) }
{
    match text {
        None => Some(usual),
        Some(text) => quad_in(text.as_bytes()),
    }
}

/// The servers of the options `--server` and `--second`. The second one is the first where it isn't given.
pub(crate) fn servers_or(first: Option<&str>, second: Option<&str>) -> Option<Servers>
    ensures { result ≡ servers_or (option_map (λ t. t.now) first.entry) (option_map (λ t. t.now) second.entry) }
{
    let usual = Server {
        address: LOCAL,
        port: USUAL_PORT,
    };
    let first = server_or(first, usual)?;
    let second = server_or(second, first)?;
    Some(Servers { first, second })
}

// The server of an option, and the usual one where it isn't given.
fn server_or(text: Option<&str>, usual: Server) -> Option<Server>
    ensures { result ≡ server_or usual (option_map (λ t. t.now) text.entry) }
{
    match text {
        None => Some(usual),
        Some(text) => server(text),
    }
}
