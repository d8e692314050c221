ghost use Rattle.std.specs.Prelude.{◌≡◌, map, string_bytes};
ghost use Rattle.numbers.specs.Request.{asked, method_named};

use chinese_number::{ChineseCountMethod, Wanted};
use cn_dynamic::{Way, way_named};

/// What a search looks for, and how it is read.
#[derive(Debug, Copy, Clone)]
pub struct Search {
    /// Whether the search is for expressions, which are read as quantities, or for numbers.
    pub exact: bool,
    pub wanted: Wanted,
    pub method: ChineseCountMethod,
}

/// What the words of the command line ask for: the usage, or a search.
#[derive(Debug, Copy, Clone)]
pub enum Request {
    Help,
    Search(Search),
}

// The method with a name; `None` if there is none.
fn method_named(name: &str) -> Option<ChineseCountMethod>
    ensures { result ≡ method_named name.now }
{
    match way_named(name.as_bytes()) {
        Some(Way::Units(method)) => Some(method),
        _ => None,
    }
}

/// The request of these words; `None` if one of them is unknown.
pub fn request_of(words: &[String]) -> Option<Request>
    ensures { result ≡ asked (map string_bytes words.now) }
{
    let mut search = Search {
        exact: false,
        wanted: Wanted::EVERYDAY,
        method: ChineseCountMethod::TenThousand,
    };
    let mut asks_help = false;
    for word in words {
        match word.as_str() {
            "--help" => asks_help = true,
            "--exact" => search.exact = true,
            "--all" => search.wanted = Wanted::ALL,
            name => search.method = method_named(name)?,
        }
    }
    if asks_help {
        Some(Request::Help)
    } else {
        Some(Request::Search(search))
    }
}
