//! Finds the Chinese numbers in its input, or the expressions, line by line.
//!
//! ```text
//! 第二十三回，他五六十歲       1:2 二十三 23
//!                             1:8 五六十 err the chinese number is incorrect (position: 0)
//! ```
//!
//! Each number has a line of its own: its position, as LINE:COLUMN, both counted from 1 and columns
//! in characters; its text; and the number, or `err` and the text of the error, whose position
//! counts within the text of the number. A line that is not UTF-8 is answered by LINE:1 `bad line`.
//!
//! With `--exact` the lines are those of expressions rather than numbers, with their quantities,
//! such as `1:2 12.5% 125/1000`: the numerator, and `/` and the denominator if that is not 1.
//!
//! The status is 0 if all was read and answered, 1 if a read or a write failed, and 2 if memory ran
//! out or a word of the command line is unknown. If it is not 0, the answers to the first lines
//! have been written, and they are whole unless a write failed.
#![tactic(auto)]

ghost use Rattle.std.specs.Prelude.{◌≡◌, IfErr, IfOk, false, is_some};
ghost use Rattle.numbers.specs.Request.{asks_search};

mod fault;
mod options;
mod search;

use crate::fault::{RunError, status};
use crate::options::{Request, Search, request_of};
use crate::search::search_lines;
use std::alloc::Global;
use std::env;
use std::io::{self, BufReader, BufWriter, Read, Write};
use std::process::ExitCode;

static USAGE: &str = "\
usage: numbers [--exact] [--all] [low | ten_thousand | middle | high]
Finds the Chinese numbers in its input. For each it writes a line LINE:COLUMN TEXT NUMBER, or
LINE:COLUMN TEXT err and why it is refused. The method is ten_thousand unless one is named.
--exact finds expressions, as 3.5万 and -12.5%, in place of numbers. NUMBER is then the numerator,
and / and the denominator where that is not 1.
--all looks for every character that is read, those of cheques and the units above 兆 too.";

fn request(rt: &HostRuntime) -> io::Result<Option<Request>> {
    let mut words = Vec::new(rt.alloc());
    for word in env::args(rt)?.skip(1) {
        words.push(word)?;
    }
    Ok(request_of(words.as_slice()))
}

// The reader and the writer of a search, buffered. The only error is that memory ran out.
fn buffered<R: Read + Drop, W: Write + Drop>(
    alloc: Global,
    source: R,
    sink: W,
) -> Result<(BufReader<R>, BufWriter<W>), RunError>
    ensures { IfErr result (λ error. error ≡ RunError.Memory) }
{
    let reader = BufReader::new(alloc, source).map_err(|_| RunError::Memory)?;
    let writer = BufWriter::new(alloc, sink).map_err(|_| RunError::Memory)?;
    Ok((reader, writer))
}

fn search_input(rt: &HostRuntime, search: Search) -> Result<(), RunError> {
    let (mut reader, mut writer) = buffered(rt.alloc(), rt.reader(), io::writer(rt))?;
    search_lines(rt.alloc(), &mut reader, &mut writer, search)
}

// Answers the request, and returns whether there was one. If nothing is searched, the only error is
// that a write failed.
fn serve(rt: &HostRuntime, request: Option<Request>) -> Result<bool, RunError>
    ensures answered { IfOk result (λ answered. answered ≡ is_some request) }
    ensures fault { asks_search request ≡ false → IfErr result (λ error. error ≡ RunError.Write) }
{
    match request {
        Some(Request::Help) => println!(rt; "{USAGE}").map_err(|_| RunError::Write)?,
        Some(Request::Search(search)) => search_input(rt, search)?,
        None => {
            eprintln!(rt; "{USAGE}").map_err(|_| RunError::Write)?;
            return Ok(false);
        }
    }
    Ok(true)
}

// Answers what the command line asks for, and returns whether it asks for anything.
fn run(rt: &HostRuntime) -> Result<bool, RunError> {
    let request = request(rt).map_err(RunError::of_read)?;
    serve(rt, request)
}

fn main(rt: HostRuntime) -> ExitCode {
    ExitCode::from(status(&run(&rt)))
}
