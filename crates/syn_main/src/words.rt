// The words of the process: its arguments behind the first, which is the program's name. The runtime
// gives all arguments or none, so one that is not text refuses the whole command.
ghost use Rattle.std.specs.Prelude.{◌≡◌, ◌++◌, IfOk, drop};
ghost use Rattle.syn_main.specs.Ending as ending;

use std::alloc::{AllocError, Global};
use std::env::Args;
use std::io::ErrorKind;
use syn_app::Status;

/// The words among the arguments. The one error is want of memory.
pub fn words_in(alloc: Global, args: Args) -> Result<Vec<String>, AllocError>
    ensures { IfOk result (λ list. list.items ≡ drop 1 args.rest.items) }
{
    listed(alloc, after_name(args))
}

/// The arguments after the first.
fn after_name(args: Args) -> Args
    ensures { result.rest.items ≡ drop 1 args.rest.items }
{
    let mut words = args;
    let _name = words.next();
    words
}

/// The texts as a list.
fn listed(alloc: Global, texts: Args) -> Result<Vec<String>, AllocError>
    ensures { IfOk result (λ list. list.items ≡ texts.rest.items) }
{
    let mut list = Vec::new(alloc);
    for text in texts {
        list.push(text)?;
    }
    Ok(list)
}

/// The status that stands for arguments that the runtime could not give.
pub fn refusal(kind: ErrorKind) -> Status
    ensures { result ≡ ending.refusal kind }
{
    match kind {
        ErrorKind::OutOfMemory => Status::NoMemory,
        _ => Status::Words,
    }
}
