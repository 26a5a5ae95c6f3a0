//! `xet_demo` runs a script over a chunk store, and prints what each of its commands answers.
#![tactic(auto)]

pub mod made;
pub mod print;
pub mod run;
pub mod script;
pub mod words;

use run::{Status, run_script};
use std::env::Env;
use std::io::ErrorKind;
use std::process::ExitCode;
use std::{env, io};
use words::Question;
use xet_types::{StdSink, StdSource};

const VERSION: &str = "xet_demo 0.1.0";

const HELP: &str = "\
Reads a script from standard input, runs its commands over an empty chunk store in memory, and prints
what each of them answers. With `make N` the script isn't read: N files are made, a part of each is
read, and sums are printed. A line is a moment in milliseconds, a command and its words; HASH and
FILE are 64 hexadecimal digits, BYTES are hexadecimal digits, or `-` for none:

  MOMENT xorb HASH BYTES          stores a xorb
  MOMENT shard BYTES              accepts a shard
  MOMENT plan1 FILE RANGE         opens a read of a file, with links of version 1;
                                  RANGE is `all` or START-END
  MOMENT plan2 FILE RANGE         the same with links of version 2
  MOMENT fetch READ LINK          fetches a link of a read
  MOMENT abandon READ             closes a read
  MOMENT hide FILE                hides a file until a shard that lists it is accepted
  MOMENT delete-shard HASH        takes a shard out
  MOMENT delete-xorb HASH         takes a xorb out
  MOMENT expire MS                sets the age above which links are expired
  MOMENT max COUNT                sets how many runs a link of version 2 brings at most
  MOMENT dedup HASH               asks for the shard that has a chunk
  MOMENT dedup-expire MS          sets for how long such an answer is good; MS may be `never`
  MOMENT drop-dedup HASH          drops the entries for deduplication that name a shard
  MOMENT size FILE                asks how many bytes a file has
  MOMENT data FILE RANGE          asks for a file's bytes
  MOMENT batch FILE..             asks for the plans of files, taken together
  MOMENT random SEED COUNT SIZE   stores a generated xorb of COUNT chunks of SIZE bytes
  MOMENT lazy SIZE TERM..         stores a generated file of chunks of SIZE bytes;
                                  TERM is SEED:START-END
  MOMENT xorbs                    lists the xorbs
  MOMENT shards                   lists the shards
  MOMENT files                    lists the files with the shards that list them
  MOMENT integrity                checks that listed xorbs are stored, and segments fit
  MOMENT reachable                checks that each shard and xorb is of use
  MOMENT readable                 checks that all live files can be read

  --help     prints this
  --version  prints the version";

/// The words behind the program's name.
fn command_line<R: Env + AllocGlobal>(rt: &R) -> Result<Vec<String>, Status> {
    let all = match env::args(rt) {
        Ok(all) => all,
        Err(e) if e.kind() == ErrorKind::OutOfMemory => return Err(Status::OutOfMemory),
        Err(_) => return Err(Status::Usage),
    };
    let mut words = Vec::new(rt.alloc());
    for word in all.skip(1) {
        if words.push(word).is_err() {
            return Err(Status::OutOfMemory);
        }
    }
    Ok(words)
}

/// Prints what is asked about the program.
fn answer<R: Print>(rt: &R, question: Question) -> Status {
    let printed = match question {
        Question::Help => println!(rt; "{}\n\n{HELP}", Status::Usage),
        Question::Version => println!(rt; "{VERSION}"),
    };
    match printed {
        Ok(()) => Status::Done,
        Err(_) => Status::WriteFault,
    }
}

/// Runs the program with these words.
fn call<R: Input + Print + AllocGlobal>(rt: &R, words: &[String]) -> Status {
    if let Some(question) = words::asked(words) {
        return answer(rt, question);
    }
    let mut source = StdSource::new(rt.reader());
    let mut sink = StdSink::new(io::writer(rt));
    run_script(rt.alloc(), words, &mut source, &mut sink)
}

fn main(rt: HostRuntime) -> ExitCode {
    let status = match command_line(&rt) {
        Ok(words) => call(&rt, &words),
        Err(status) => status,
    };
    if status != Status::Done {
        let _ = eprintln!(rt; "{status}");
    }
    ExitCode::from(status.exit())
}

#[cfg(test)]
mod tests;
