//! The program: it carries out the command of its words with the files and the standard output of the
//! system, and ends with the command's status.
#![tactic(auto)]

use edge_io::{DiskFiles, OpenGate, StdSink};
use smemu::{Status, refuse_foreign_word, smemu_main};
use std::alloc::Global;
use std::env::FillError;
use std::io::ErrorKind;
use std::process::ExitCode;
use std::rt::Env;
use std::sync::Wait;
use std::thread::Threads;
use std::{env, io};

/// The arguments below a place, where the program's own name has no letters.
#[derive(Drop)]
struct Front<'a, R> {
    system: &'a R,
    count: usize,
}

impl<R: Env> Env for Front<'_, R> {
    fn arg(&self, i: usize, buf: &mut [u8]) -> Result<usize, FillError> {
        if i == 0 {
            return Ok(0);
        }
        if i < self.count {
            return self.system.arg(i, buf);
        }
        Err(FillError::NotPresent)
    }

    fn var(&self, name: &str, buf: &mut [u8]) -> Result<usize, FillError> {
        self.system.var(name, buf)
    }

    fn var_at(&self, i: usize, buf: &mut [u8]) -> Result<usize, FillError> {
        self.system.var_at(i, buf)
    }
}

/// The words below a place, the program's own name left out.
fn words_below<R: Env>(alloc: Global, system: &R, count: usize) -> io::Result<Vec<String>> {
    let front = (Front { system, count }, alloc);
    Ok(env::args(&front)?.skip(1).collect(alloc)?)
}

/// The words before the first that is no text.
fn words_before<R: Env>(alloc: Global, system: &R) -> io::Result<Vec<String>> {
    let mut words = Vec::new(alloc);
    for count in 2..usize::MAX {
        match words_below(alloc, system, count) {
            Ok(more) => words = more,
            Err(error) if error.kind() == ErrorKind::InvalidData => break,
            Err(error) => return Err(error),
        }
    }
    Ok(words)
}

/// Carries out the command of the words. Several cores are threads of the system.
fn carry_out<T: Threads + Wait + Sync>(threads: &T, rt: HostRuntime) -> io::Result<Status> {
    let alloc = rt.alloc();
    let mut out = StdSink::new(rt.stdout());
    match words_below(alloc, &rt, usize::MAX) {
        Ok(words) => {
            let mut files = DiskFiles::new(rt);
            Ok(smemu_main(
                threads,
                alloc,
                words.as_slice(),
                &mut files,
                &mut out,
                &OpenGate,
            ))
        }
        Err(error) if error.kind() == ErrorKind::InvalidData => {
            let words = words_before(alloc, &rt)?;
            Ok(refuse_foreign_word(alloc, words.as_slice(), &mut out))
        }
        Err(error) => Err(error),
    }
}

fn main(rt: HostRuntime) -> io::Result<ExitCode> {
    let status = match carry_out(&rt, rt) {
        Ok(status) => status,
        Err(error) if error.kind() == ErrorKind::OutOfMemory => Status::OutOfMemory,
        Err(error) => return Err(error),
    };
    Ok(ExitCode::from(status.code()))
}
