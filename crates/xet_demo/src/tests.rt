//! What is printed about the program.
use super::*;
use std::alloc::Global;
use std::cell::RefCell;
use std::fmt::{Display, Write};
use std::test::Fail;

/// Output that is kept in memory, or fails.
#[derive(Drop)]
struct Kept {
    text: RefCell<String>,
    fails: bool,
}

impl Print for Kept {
    fn print<D: Display + Drop>(&self, value: D) -> io::Result<()> {
        if self.fails {
            return Err(io::Error::from(ErrorKind::Other));
        }
        match self.text.try_borrow_mut() {
            Ok(mut text) => match write!(text, "{value}") {
                Ok(()) => Ok(()),
                Err(_) => Err(io::Error::from(ErrorKind::OutOfMemory)),
            },
            Err(_) => Err(io::Error::from(ErrorKind::Other)),
        }
    }

    fn println<D: Display + Drop>(&self, value: D) -> io::Result<()> {
        self.print(value)?;
        self.print("\n")
    }

    fn write_all(&self, bytes: &[u8]) -> io::Result<()> {
        match std::str::from_utf8(bytes) {
            Ok(text) => self.print(text),
            Err(_) => Err(io::Error::from(ErrorKind::InvalidData)),
        }
    }
}

/// How the answer to a question ends, and what it prints.
fn printed(alloc: Global, question: Question, fails: bool) -> Result<(Status, String), Fail> {
    let output = Kept {
        text: RefCell::new(String::new(alloc)),
        fails,
    };
    let status = answer(&output, question);
    Ok((status, output.text.into_inner()))
}

#[test]
fn version(rt: HostRuntime) -> Result<(), Fail> {
    let (status, text) = printed(rt.alloc(), Question::Version, false)?;
    assert_eq!(rt; status, Status::Done);
    assert_eq!(rt; text.as_str(), "xet_demo 0.1.0\n");
    Ok(())
}

#[test]
fn help(rt: HostRuntime) -> Result<(), Fail> {
    let parts = [
        "usage: xet_demo (memory or local DIR) [cache DIR CAPACITY SEED] [make N], or threads N\n",
        "  MOMENT xorb HASH BYTES ",
        "  MOMENT shard BYTES ",
        "  MOMENT plan1 FILE RANGE ",
        "  MOMENT plan2 FILE RANGE ",
        "  MOMENT fetch READ LINK ",
        "  MOMENT abandon READ ",
        "  MOMENT hide FILE ",
        "  MOMENT delete-shard HASH ",
        "  MOMENT delete-xorb HASH ",
        "  MOMENT expire MS ",
        "  MOMENT max COUNT ",
        "  MOMENT dedup HASH ",
        "  MOMENT dedup-expire MS ",
        "  MOMENT drop-dedup HASH ",
        "  MOMENT size FILE ",
        "  MOMENT data FILE RANGE ",
        "  MOMENT batch FILE.. ",
        "  MOMENT random SEED COUNT SIZE ",
        "  MOMENT lazy SIZE TERM.. ",
        "  MOMENT xorbs ",
        "  MOMENT shards ",
        "  MOMENT files ",
        "  MOMENT integrity ",
        "  MOMENT reachable ",
        "  MOMENT readable ",
        "  --help ",
        "  --version ",
    ];
    let (status, text) = printed(rt.alloc(), Question::Help, false)?;
    assert_eq!(rt; status, Status::Done);
    assert!(rt; text.as_str().starts_with(parts[0]));
    assert!(rt; text.as_str().ends_with("\n"));
    for part in parts {
        assert!(rt; text.as_str().contains(part), "{part}");
    }
    Ok(())
}

#[test]
fn output_that_fails(rt: HostRuntime) -> Result<(), Fail> {
    for question in [Question::Help, Question::Version] {
        let (status, _) = printed(rt.alloc(), question, true)?;
        assert_eq!(rt; status, Status::WriteFault);
    }
    Ok(())
}
