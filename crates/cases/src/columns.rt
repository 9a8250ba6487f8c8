// Columns and lines by example: what reads, what is refused, and what is written where.
use column::{LineFault, Place, Reader, read_column, read_line, write_column, write_line};

#[test]
fn columns(rt: HostRuntime) {
    let cases: [(&[u8], Option<u32>); 10] = [
        (b"          0", Some(0)),
        (b"         10", Some(10)),
        (b" 4294967295", Some(4294967295)),
        (b" 4294967296", None),
        (b"         07", None),
        (b"        1 0", None),
        (b"         1a", None),
        (b"           ", None),
        (b"         10 ", None),
        (b"", None),
    ];
    for (bytes, number) in cases {
        assert_eq!(rt; read_column(bytes), number);
    }
    let mut out = *b"-------------";
    assert_eq!(rt; write_column(&mut out, 3, 10), None);
    assert_eq!(rt; write_column(&mut out, 1, 4294967295), Some(12));
    assert!(rt; out == *b"- 4294967295-");
}

#[test]
fn lines(rt: HostRuntime) {
    let cases: [(&[u8], Result<usize, LineFault>); 6] = [
        (b"-          7          1\n          2", Ok(24)),
        (b"-          7\n", Err(LineFault::WrongLength)),
        (
            b"-          7          1          2\n",
            Err(LineFault::WrongLength),
        ),
        (b"-          7          1", Err(LineFault::WrongLength)),
        (b"-          7         01\n", Err(LineFault::NotANumber)),
        (b"", Err(LineFault::WrongLength)),
    ];
    for (bytes, answer) in cases {
        let mut words = [5, 6];
        assert_eq!(rt; read_line(bytes, 1, &mut words), answer);
        assert!(rt; words == if answer.is_ok() { [7, 1] } else { [5, 6] });
    }
    let mut out = *b"--------------------------";
    assert_eq!(rt; write_line(&mut out, 4, &[7, 1]), None);
    assert_eq!(rt; write_line(&mut out, 1, &[7, 1]), Some(24));
    assert!(rt; out == *b"-          7          1\n--");
}

#[test]
fn places(rt: HostRuntime) -> Result<(), LineFault> {
    let text = b"          7          1\n         07\n";
    let mut words = [0; 2];
    let second = Reader::new(text).read(&mut words)?;
    assert_eq!(rt; words, [7, 1]);
    assert_eq!(rt; second.place, Place { at: 23, line: 2 });
    let mut word = [5];
    assert_eq!(rt; second.read(&mut word).err(), Some(LineFault::NotANumber));
    assert_eq!(rt; word, [5]);
    Ok(())
}
