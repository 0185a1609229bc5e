// The words of the command line.
use std::env::{self, Env, FillError};
use std::io;

/// The words behind the program's name. That name may be any bytes: it is never looked at.
pub fn words_of<R: Env + AllocGlobal>(rt: &R) -> io::Result<Vec<String>> {
    let words = env::args(&(BehindName(rt), rt.alloc()))?;
    Ok(words.collect(rt.alloc())?)
}

// An environment whose first argument is the one behind the program's name. `env::args` asks for all arguments, and
// fails where one isn't UTF-8.
#[derive(Drop)]
struct BehindName<'a, R>(&'a R);

impl<R: Env> Env for BehindName<'_, R> {
    fn arg(&self, i: usize, buf: &mut [u8]) -> Result<usize, FillError> {
        self.0.arg(i.saturating_add(1), buf)
    }

    fn var(&self, name: &str, buf: &mut [u8]) -> Result<usize, FillError> {
        self.0.var(name, buf)
    }

    fn var_at(&self, i: usize, buf: &mut [u8]) -> Result<usize, FillError> {
        self.0.var_at(i, buf)
    }
}
