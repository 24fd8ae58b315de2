use std::rt::Env;
use std::{env, io};

/// The words behind the program's name. Words that are no text are an error.
pub fn host_words<R: Env + AllocGlobal>(rt: &R) -> io::Result<Vec<String>> {
    Ok(env::args(rt)?.skip(1).collect(rt.alloc())?)
}
