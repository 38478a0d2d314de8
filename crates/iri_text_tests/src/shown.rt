use crate::same::same;
use iri_text::{
    Bytes, CapacityOverflowError, Show, SliceSink, Stop, StringSink, Text, TextSink,
    ToDedicatedString, ToStringFallible, show_each, show_five, show_four, show_three, show_two,
    try_append_to_string, write_at_start, write_to_slice,
};
use std::alloc::{AllocError, Global};
use std::fmt;
use std::fmt::Write;
use std::test::Fail;

// A word that can be owned.
struct Word<'a>(&'a str);

impl<'a> Show for Word<'a> {
    ghost text = { λ w. w.0.now };

    fn show<W: TextSink>(&self, sink: &mut W) -> Result<(), Stop> {
        sink.put(self.0)
    }
}

impl<'a> ToDedicatedString for Word<'a> {
    type Target = Text;

    fn try_to_dedicated_string(&self, alloc: Global) -> Result<Text, AllocError> {
        let string = self.try_to_string(alloc)?;
        Ok(Text::from_string(string))
    }
}

fn owned<T: ToDedicatedString>(value: &T, alloc: Global) -> Result<T::Target, AllocError> {
    value.try_to_dedicated_string(alloc)
}

#[test]
fn slices(rt: HostRuntime) -> Result<(), Fail> {
    let mut five = [0u8; 5];
    match write_to_slice(&mut five, &"hello") {
        Ok(text) => same(&rt, text, "hello"),
        Err(_) => assert!(rt; false),
    }
    let mut four = [0u8; 4];
    match write_to_slice(&mut four, &"hello") {
        Ok(_) => assert!(rt; false),
        Err(error) => {
            let told = format!(in rt.alloc(); "{error}")?;
            same(&rt, told.as_str(), "buffer capacity overflow");
        }
    }
    let mut six = [b'.'; 6];
    match write_at_start(&mut six, &"hello") {
        Ok(len) => assert!(rt; len == 5),
        Err(_) => assert!(rt; false),
    }
    same(&rt, six.as_slice(), b"hello.".as_slice());
    assert!(rt; write_at_start(&mut six, &"goodbye").is_err());
    same(&rt, six.as_slice(), b"hello.".as_slice());
    let copy = CapacityOverflowError.clone()?;
    let told = format!(in rt.alloc(); "{copy:?}")?;
    same(&rt, told.as_str(), "CapacityOverflowError");
    Ok(())
}

#[test]
fn a_slice_stops_where_no_room_is_left(rt: HostRuntime) {
    let mut buf = [0u8; 4];
    let mut sink = SliceSink::new(&mut buf);
    assert!(rt; show_three(&mut sink, &"ab", &"cde", &"f").is_err());
    same(&rt, sink.as_str(), "ab");
    assert!(rt; sink.put("\u{e9}").is_ok());
    same(&rt, sink.as_str(), "ab\u{e9}");
    same(&rt, buf.as_slice(), "ab\u{e9}".as_bytes());
    assert!(rt; SliceSink::new(&mut buf).put("abcde").is_err());
    same(&rt, buf.as_slice(), "ab\u{e9}".as_bytes());
}

#[test]
fn strings(rt: HostRuntime) -> Result<(), Fail> {
    let mut text = "a".to_string(rt.alloc())?;
    // Where allocation fails the string is the old text and a prefix of the new one.
    if try_append_to_string(&mut text, &42u8).is_err() {
        assert!(rt; ["a", "a4"].contains(&text.as_str()));
        return Err(AllocError)?;
    }
    same(&rt, text.as_str(), "a42");
    let shown = 42i32.try_to_string(rt.alloc())?;
    same(&rt, shown.as_str(), "42");
    let mut sink = StringSink::new(&mut text);
    sink.put("b")?;
    same(&rt, text.as_str(), "a42b");
    let again = text.try_to_string(rt.alloc())?;
    same(&rt, again.as_str(), "a42b");
    Ok(())
}

#[test]
fn rows(rt: HostRuntime) -> Result<(), Fail> {
    let mut text = String::new(rt.alloc());
    let mut sink = StringSink::new(&mut text);
    show_two(&mut sink, &"a", &1u8)?;
    show_four(&mut sink, &"b", &-2i8, &"c", &"d")?;
    show_five(&mut sink, &"e", &"f", &3u64, &"g", &"h")?;
    show_each(&mut sink, &["i", "", "jk"])?;
    same(&rt, text.as_str(), "a1b-2cdef3ghijk");
    Ok(())
}

#[test]
fn held(rt: HostRuntime) -> Result<(), Fail> {
    let text = owned(&Word("word"), rt.alloc())?;
    same(&rt, text.as_str(), "word");
    let printed = format!(in rt.alloc(); "<{text}>")?;
    same(&rt, printed.as_str(), "<word>");
    // No text here is padded, as in the Rust crate.
    let wide = format!(in rt.alloc(); "<{text:>8}>")?;
    same(&rt, wide.as_str(), "<word>");
    let shown = text.try_to_string(rt.alloc())?;
    same(&rt, shown.as_str(), "word");
    same(&rt, text.into_string().as_str(), "word");
    let mut roomy = String::with_capacity(rt.alloc(), 40)?;
    try_append_to_string(&mut roomy, &"word")?;
    assert!(rt; roomy.capacity() >= 40);
    assert!(rt; Text::from_string(roomy).into_string().capacity() >= 40);
    let list: Vec<u8> = Vec::with_capacity(rt.alloc(), 40)?;
    assert!(rt; Bytes::from_vec(list).into_vec().capacity() >= 40);
    let bytes = Bytes::from_vec(vec![in rt.alloc(); 1, 2]?);
    same(&rt, bytes.as_slice(), [1, 2].as_slice());
    same(&rt, bytes.into_vec().as_slice(), [1, 2].as_slice());
    Ok(())
}

// Takes so many pieces, and refuses the others.
#[derive(Drop)]
struct Refusing {
    left: usize,
}

impl Write for Refusing {
    fn write_str(&mut self, _piece: &str) -> fmt::Result {
        if self.left == 0 {
            return Err(fmt::Error);
        }
        self.left -= 1;
        Ok(())
    }
}

#[test]
fn a_display_fails_where_the_formatter_does(rt: HostRuntime) -> Result<(), Fail> {
    let text = owned(&Word("word"), rt.alloc())?;
    let mut takes = Refusing { left: 1 };
    assert!(rt; write!(takes, "{text}").is_ok());
    assert!(rt; write!(takes, "{text}").is_err());
    Ok(())
}
