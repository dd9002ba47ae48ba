use super::*;
use std::test::Fail;

#[test]
fn a_file_is_read_to_its_end_and_a_folder_is_not(rt: HostRuntime) -> Result<(), Fail> {
    for (path, answer) in [
        ("/dev/zero", Ok(4)),
        ("/dev/null", Ok(0)),
        ("/", Err(SourceFailed)),
    ] {
        let mut source = FileSource::open(&rt, path)?;
        let mut chunk = [0u8; 4];
        assert_eq!(rt; source.read(&mut chunk), answer, "{path}");
        assert_eq!(rt; source.failure().is_some(), answer.is_err(), "{path}");
    }
    Ok(())
}

// Answers that a signal interrupted it so many times, and then four octets.
#[derive(Drop)]
struct Interrupted(u8);

impl Read for Interrupted {
    fn read(&mut self, into: &mut [u8]) -> io::Result<usize> {
        if self.0 > 0 {
            self.0 -= 1;
            return Err(io::Error::from(ErrorKind::Interrupted));
        }
        b"octets".as_slice().read(into)
    }
}

#[test]
fn an_interrupted_read_is_tried_again(rt: HostRuntime) {
    for times in [0, 1, 7] {
        let mut chunk = [0u8; 4];
        let count = read_on(&mut Interrupted(times), &mut chunk);
        assert_eq!(rt; count.ok(), Some(4), "{times} times");
        assert_eq!(rt; &chunk, b"octe", "{times} times");
    }
}
