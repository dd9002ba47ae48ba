use super::*;

// A file that takes at most this number of octets at the first write, and all at the later ones.
#[derive(Drop)]
struct Cut<'a> {
    first: Option<usize>,
    file: &'a mut Vec<u8>,
}

impl Write for Cut<'_> {
    fn write(&mut self, octets: &[u8]) -> io::Result<usize> {
        let room = match self.first.take() {
            Some(room) => room.min(octets.len()),
            None => octets.len(),
        };
        self.file.extend_from_slice(&octets[..room])?;
        Ok(room)
    }

    fn flush(&mut self) -> io::Result<()> {
        Ok(())
    }
}

#[test]
#[tactic(auto, using(crate::proofs::TestLines::first_line, crate::proofs::TestLines::second_line))]
fn no_line_is_glued_to_another(rt: HostRuntime) {
    // how much the first write takes, whether the file was cut before, and what stands in the file at last
    for (room, cut, text) in [
        (0, false, "oem 0002\n"),
        (1, false, "o\noem 0002\n"),
        (8, false, "oem 0001\noem 0002\n"),
        (0, true, "\noem 0002\n"),
        (1, true, "\noem 0002\n"),
        (2, true, "\no\noem 0002\n"),
        (9, true, "\noem 0001\noem 0002\n"),
    ] {
        let mut octets = Vec::new(rt.alloc());
        let mut cut = cut;
        let mut file = Cut {
            first: Some(room),
            file: &mut octets,
        };
        let first = append(&mut file, &mut cut, b"oem 0001\n").is_err();
        let second = append(&mut file, &mut cut, b"oem 0002\n").is_ok();
        assert!(rt; first && second && !cut, "{room}");
        assert_eq!(rt; octets.as_slice(), text.as_bytes(), "{room}");
    }
}
