//! Reads and writes that fail in turn.
use nts_program::{Status, run};
use std::io::{self, ErrorKind, Read, Write};
use std::process::Abort;

const TEXT: &[u8] =
    b"trait Clone(type)\ntype Vec(type)\nimpl Clone(u32)\nimpl Clone(Vec(?T)) <- Clone(?T)\ngoal Clone(Vec(u32))\ngoal Clone(u8)\ntrait Only(type)\nimpl Only(u32)\ngoal Only(?x)\n";

const ANSWERS: &[u8] = b"yes\nno\nyes\n  ?x = u32\n";

/// A reader that gives a few bytes a call, and fails at one call.
#[derive(Drop)]
struct FailingRead<'a> {
    rest: &'a [u8],
    calls: usize,
    fails_at: usize,
}

impl Read for FailingRead<'_> {
    fn read(&mut self, buf: &mut [u8]) -> io::Result<usize> {
        self.calls = self.calls.saturating_add(1);
        if self.calls == self.fails_at {
            return Err(io::Error::from(ErrorKind::ConnectionReset));
        }
        let room = buf.len().min(7);
        self.rest.read(&mut buf[..room])
    }
}

/// A writer that takes one byte a call, and fails at one call of a write or of letting out.
#[derive(Drop)]
struct FailingWrite {
    taken: Vec<u8>,
    calls: usize,
    fails_at: usize,
}

impl FailingWrite {
    fn fails(&mut self) -> bool {
        self.calls = self.calls.saturating_add(1);
        self.calls == self.fails_at
    }
}

impl Write for FailingWrite {
    fn write(&mut self, buf: &[u8]) -> io::Result<usize> {
        if self.fails() {
            return Err(io::Error::from(ErrorKind::ConnectionReset));
        }
        let count = buf.len().min(1);
        self.taken.extend_from_slice(&buf[..count])?;
        Ok(count)
    }

    fn flush(&mut self) -> io::Result<()> {
        if self.fails() {
            return Err(io::Error::from(ErrorKind::ConnectionReset));
        }
        Ok(())
    }
}

/// Each failed read ends the run, with the answers so far; until there are no more reads.
#[test]
fn reads_that_fail(rt: HostRuntime) {
    let mut failed = 0;
    for fails_at in 1..100 {
        let input = FailingRead {
            rest: TEXT,
            calls: 0,
            fails_at,
        };
        let mut output = Vec::new(rt.alloc());
        let status = run(rt.alloc(), input, &mut output);
        assert!(rt; ANSWERS.starts_with(&output));
        if status == Status::Done {
            assert!(rt; output.as_slice() == ANSWERS);
        } else {
            assert_eq!(rt; status, Status::Failed);
            failed = fails_at;
        }
    }
    assert!(rt; failed > 10 && failed < 99);
}

/// Each failed write, and each answer that can't be let out, ends the run, and what was written is a beginning.
#[test]
fn writes_that_fail(rt: HostRuntime) {
    let mut failed = 0;
    for fails_at in 1..100 {
        let mut output = FailingWrite {
            taken: Vec::new(rt.alloc()),
            calls: 0,
            fails_at,
        };
        let status = run(rt.alloc(), TEXT, &mut output);
        assert!(rt; ANSWERS.starts_with(&output.taken));
        if status == Status::Done {
            assert!(rt; output.taken.as_slice() == ANSWERS);
        } else {
            assert_eq!(rt; status, Status::Failed);
            failed = fails_at;
        }
    }
    assert!(rt; failed > 10 && failed < 99);
}

const ENDLESS: &[u8] =
    b"trait D(type, type)\ntrait E(type, type)\ntrait F(type, type)\ntrait G(type, type)\ntype Q(type, type)\nimpl D(?X, Q(?X, ?X))\nimpl E(?X, ?Y) <- D(?X, ?A), D(?A, ?B), D(?B, ?C), D(?C, ?Y)\nimpl F(?X, ?Y) <- E(?X, ?A), E(?A, ?B), E(?B, ?C), E(?C, ?Y)\nimpl G(?X, ?Y) <- F(?X, ?A), F(?A, ?B), F(?B, ?C), F(?C, ?Y)\ngoal G(u8, ?y)\n";

/// An answer of 2 to 64 parts, over 64 nodes: what is printed of it goes out as it is read, until a write fails.
#[test]
fn an_answer_is_not_made_in_memory(rt: HostRuntime) {
    let mut output = FailingWrite {
        taken: Vec::new(rt.alloc()),
        calls: 0,
        fails_at: 2000,
    };
    let status = run(rt.alloc(), ENDLESS, &mut output);
    assert_eq!(rt; status, Status::Failed);
    assert!(rt; output.taken.starts_with(b"yes\n  ?y = Q(Q(Q(Q("));
}
