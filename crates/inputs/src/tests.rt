// What no clause says: that an interrupted read is tried again, and that another error is passed on.
use super::read_full;
use std::io::{self, ErrorKind, Read};

// Gives the bytes 0, 1, 2 and so on, one at a read, and then an end or an error. Each byte comes after a read that is interrupted.
#[derive(Drop)]
struct Halting {
    given: u8,
    limit: u8,
    fails: bool,
    goes_on: bool,
}

impl Halting {
    fn new(limit: u8, fails: bool) -> Halting {
        Halting {
            given: 0,
            limit,
            fails,
            goes_on: true,
        }
    }
}

impl Read for Halting {
    fn read(&mut self, buf: &mut [u8]) -> io::Result<usize> {
        self.goes_on = !self.goes_on;
        if !self.goes_on {
            return Err(io::Error::from(ErrorKind::Interrupted));
        }
        if self.given >= self.limit && self.fails {
            return Err(io::Error::from(ErrorKind::BrokenPipe));
        }
        if self.given >= self.limit || buf.is_empty() {
            return Ok(0);
        }
        buf[0] = self.given;
        self.given += 1;
        Ok(1)
    }
}

#[test]
fn interrupted_reads_are_tried_again(rt: HostRuntime) -> io::Result<()> {
    let mut buffer = [9u8; 5];
    assert_eq!(rt; read_full(&mut Halting::new(3, false), &mut buffer)?, 3);
    assert_eq!(rt; buffer, [0, 1, 2, 9, 9]);
    let mut full = [9u8; 2];
    assert_eq!(rt; read_full(&mut Halting::new(3, false), &mut full)?, 2);
    assert_eq!(rt; full, [0, 1]);
    Ok(())
}

#[test]
fn an_error_is_passed_on(rt: HostRuntime) {
    let mut buffer = [9u8; 5];
    let result = read_full(&mut Halting::new(3, true), &mut buffer);
    assert!(rt; matches!(result, Err(e) if e.kind() == ErrorKind::BrokenPipe));
    assert_eq!(rt; buffer, [0, 1, 2, 9, 9]);
}
