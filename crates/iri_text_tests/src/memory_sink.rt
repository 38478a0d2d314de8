use crate::same::same;
use iri_text::{MemorySink, Sink};

#[test]
fn fails_as_told_and_where_a_piece_has_no_room(rt: HostRuntime) {
    let mut buf = [b'.'; 5];
    let mut sink = MemorySink::new(&mut buf, &[2]);
    for &(piece, want) in &[(b"ab", true), (b"cd", false), (b"cd", true), (b"ef", false)] {
        assert_eq!(rt; sink.put_all(piece).is_ok(), want);
    }
    assert!(rt; sink.flush().is_ok());
    same(&rt, sink.written(), b"abcd".as_slice());
    same(&rt, buf.as_slice(), b"abcd.".as_slice());
}
