//! The words with which a program was called.
use std::alloc::{AllocError, Global};
use std::{env, io};

/// The words after the program's name. Words that are no text are no command line, as no words are.
pub fn words_of(alloc: Global, args: io::Result<env::Args>) -> Result<Vec<String>, AllocError> {
    match args {
        Ok(args) => words_behind(alloc, args),
        Err(error) if error.kind() == io::ErrorKind::OutOfMemory => Err(AllocError),
        Err(_) => Ok(Vec::new(alloc)),
    }
}

// The words but for the first, which is the program's name.
fn words_behind(alloc: Global, args: env::Args) -> Result<Vec<String>, AllocError> {
    let mut words = Vec::new(alloc);
    for word in args.skip(1) {
        words.push(word)?;
    }
    Ok(words)
}
