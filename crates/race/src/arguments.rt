//! The words of the process.
ghost use Rattle.std.specs.Prelude.{◌≡◌, ◌⊎◌, IfErr, IfOk, map, string_bytes};
ghost use Rattle.race.specs.Arguments.{IsNotText};

use mk_files::failures::Failure;
use std::alloc::{AllocError, Global};
use std::env;
use std::io::ErrorKind;

const NOT_TEXT: &str = "\
error: the words of the command line are not UTF-8 text

For more information, try '--help'.";

/// The words of the process, of which the first is its own name. The failures are out of memory, and `Failure::Usage`
/// where a word is not UTF-8.
pub fn arguments(rt: &HostRuntime) -> Result<Vec<String>, Failure>
    ensures { IfErr result (λ failure. (failure ≡ Failure.Memory) ⊎ IsNotText failure NOT_TEXT.now) }
{
    match env::args(rt) {
        Ok(arguments) => Ok(arguments.collect(rt.alloc())?),
        Err(error) if error.kind() == ErrorKind::OutOfMemory => Err(Failure::Memory),
        Err(_) => Err(Failure::Usage(String::from_str(rt.alloc(), NOT_TEXT)?)),
    }
}

/// The same words, lent. The only error is out of memory.
pub fn texts(alloc: Global, arguments: &[String]) -> Result<Vec<&str>, AllocError>
    ensures { IfOk result (λ texts.
        map (λ text. text.now) texts.items ≡ map string_bytes arguments.now) }
{
    let mut texts = Vec::new(alloc);
    for argument in arguments {
        texts.push(argument.as_str())?;
    }
    Ok(texts)
}
