ghost use Rattle.std.specs.Prelude.{◌≡◌, IfOk, drop};
ghost use Rattle.std.specs.Vec.Iter.{into_iter_items};
ghost use Rattle.solr_cli.specs.Arguments.{AreWords};

use field_schema::NoMemory;
use std::alloc::Global;
use std::env::Args;
use std::io;
use std::io::ErrorKind;

/// The words of a command line: the arguments behind the program's name. Where one of the arguments is no text there
/// are no words, which is no command.
///
/// An error is want of memory: for the arguments, where they tell it, or for their list.
pub fn words_of(alloc: Global, args: io::Result<Args>) -> Result<Vec<String>, NoMemory>
    ensures { AreWords args result }
{
    match args {
        Ok(args) => behind_name(alloc, args),
        Err(error) => match error.kind() {
            ErrorKind::OutOfMemory => Err(NoMemory),
            _ => Ok(Vec::new(alloc)),
        },
    }
}

// The arguments behind the first, which is the program's name.
fn behind_name(alloc: Global, mut args: Args) -> Result<Vec<String>, NoMemory>
    ensures { IfOk result (λ words. words.items ≡ drop 1 (into_iter_items args)) }
{
    let _ = args.next();
    listed(alloc, args)
}

// The arguments that are left, in a list.
fn listed(alloc: Global, mut args: Args) -> Result<Vec<String>, NoMemory>
    ensures { IfOk result (λ words. words.items ≡ into_iter_items args) }
{
    let mut words = Vec::new(alloc);
    while let Some(word) = args.next() {
        words.push(word)?;
    }
    Ok(words)
}
