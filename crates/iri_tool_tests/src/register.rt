use iri_grammar::spec::{IriSpec, Spec, UriSpec};
use iri_owned::owned::RiAbsoluteString;
use iri_register::added::Added;
use iri_register::laws::{entries_are_those_of_the_commands, live_lines_share_an_entry};
use iri_register::register::Register;
use std::alloc::Global;
use std::test::Fail;

// The empty register of a base.
fn register<S: Spec>(alloc: Global, base: &str) -> Result<Register<S>, Fail> {
    let base = RiAbsoluteString::try_from_str(alloc, base)?;
    Ok(Register::new(alloc, base))
}

// Whether the entry at a place has this target and these lines.
fn is_entry<S: Spec>(register: &Register<S>, place: usize, target: &str, lines: &[u64]) -> bool {
    match (register.target_at(place), register.lines_at(place)) {
        (Some(own), Some(numbers)) => own == target && numbers == lines,
        _ => false,
    }
}

// The register of two links, of which the first stood on two lines.
fn two_links(alloc: Global) -> Result<Register<UriSpec>, Fail> {
    let mut register = register::<UriSpec>(alloc, "http://a/")?;
    register.add(b"b", 2)?;
    register.add(b"c", 3)?;
    register.add(b"./b", 4)?;
    Ok(register)
}

// Whether a register is as it was made.
fn has_two_links(register: &Register<UriSpec>) -> bool {
    register.len() == 2
        && is_entry(register, 1, "http://a/b", &[2, 4])
        && is_entry(register, 2, "http://a/c", &[3])
}

// By the laws, obeying commands one after the other leaves the entries of all, a target that comes back is last, and two lines share
// an entry exactly where steps join their targets.
#[test]
fn entries_of_commands(rt: HostRuntime) -> Result<(), Fail> {
    entries_are_those_of_the_commands();
    live_lines_share_an_entry::<UriSpec>();
    live_lines_share_an_entry::<IriSpec>();
    let mut register = two_links(rt.alloc())?;
    assert!(rt; matches!(register.remove(b"b"), Ok(Some(2))));
    register.add(b"b", 5)?;
    assert!(rt; is_entry(&register, 1, "http://a/c", &[3]));
    assert!(rt; is_entry(&register, 2, "http://a/b", &[5]));
    Ok(())
}

// A refused line leaves the entry as it was. The fifth line of an entry needs room for more.
#[test]
fn kept_where_memory_is_refused(rt: HostRuntime) -> Result<(), Fail> {
    let mut register = register::<UriSpec>(rt.alloc(), "http://a/")?;
    let lines = [2, 3, 4, 5, 6];
    for (count, line) in lines.iter().enumerate() {
        let added = register.add(b"b", *line);
        if added.is_err() {
            assert!(rt; register.len() == count.min(1));
            assert!(rt; count == 0 || is_entry(&register, 1, "http://a/b", &lines[..count]));
        }
        added?;
    }
    let added = register.add(b"c", 7);
    assert!(rt; register.len() == if added.is_ok() { 2 } else { 1 });
    added?;
    let removed = register.remove(b"b");
    assert!(rt; register.len() == if removed.is_ok() { 1 } else { 2 });
    assert!(rt; removed? == Some(5));
    Ok(())
}

// A look-up that is refused leaves the entries as they are; so does a removal whose target is the longest so far, so that
// the text of the target has to grow.
#[test]
fn kept_where_a_look_up_is_refused(rt: HostRuntime) -> Result<(), Fail> {
    let mut register = two_links(rt.alloc())?;
    let found = register.find(b"a/b/../../c");
    assert!(rt; has_two_links(&register));
    assert!(rt; found? == Some(2));
    let removed = register.remove(b"d/e/f/g/h/i/j/k/l/m/n/o/p/q/r/s/t/u/v/w/x/y/z");
    assert!(rt; has_two_links(&register));
    assert!(rt; removed?.is_none());
    Ok(())
}

// The place, from 1, of a letter in a list.
fn place_in(kept: &[u8], letter: u8) -> Option<usize> {
    for (index, own) in kept.iter().enumerate() {
        if *own == letter {
            return Some(index.saturating_add(1));
        }
    }
    None
}

// Whether the register has the links of these letters, in this order, and no other.
fn has_links(register: &Register<UriSpec>, kept: &[u8]) -> bool {
    for (index, letter) in kept.iter().enumerate() {
        match register.target_at(index.saturating_add(1)) {
            Some(target) => {
                if !target.as_bytes().ends_with(&[b'/', *letter]) {
                    return false;
                }
            }
            None => return false,
        }
    }
    register.len() == kept.len()
}

// Links that go and come back, beside a plain list of those that are there.
#[test]
fn links_come_and_go(rt: HostRuntime) -> Result<(), Fail> {
    let mut register = register::<UriSpec>(rt.alloc(), "http://a/")?;
    let mut kept: Vec<u8> = Vec::new(rt.alloc());
    let mut seed = 1u32;
    for line in 0..1000u64 {
        seed = seed.wrapping_mul(75).wrapping_add(74) % 65537;
        let letter = b'a' + (seed % 11) as u8;
        let place = place_in(kept.as_slice(), letter);
        assert!(rt; register.find(&[letter])? == place, "line {line}");
        match place {
            Some(_) => {
                assert!(rt; register.remove(&[letter])? == Some(1), "line {line}");
                kept.retain(|own: &u8| *own != letter);
            }
            None => {
                kept.push(letter)?;
                let added = register.add(&[letter], line)?;
                assert!(rt; added == Added::New(kept.len()), "line {line}");
            }
        }
        assert!(rt; has_links(&register, kept.as_slice()), "line {line}");
    }
    Ok(())
}
