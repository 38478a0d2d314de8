use iri_grammar::spec::UriSpec;
use iri_link::{LinkError, LinkSet, laws, read_links};
use iri_text::{ToStringFallible, write_to_slice};
use iri_types::view::RiAbsoluteStr;
use std::test::Fail;

// What a field value gives: a set or a fault. It fails where allocation failed.
fn read(rt: &HostRuntime, field: &[u8]) -> Result<Result<LinkSet<UriSpec>, LinkError>, Fail> {
    let base = RiAbsoluteStr::<UriSpec>::new("http://a/")?;
    match read_links(rt.alloc(), base, field) {
        Err(LinkError::Memory) => Err(LinkError::Memory)?,
        told => Ok(told),
    }
}

// A set, its `Display`, and its text in a slice that has room for exactly it.
#[test]
fn a_set_shows_its_written_form(rt: HostRuntime) -> Result<(), Fail> {
    let Ok(set) = read(&rt, b"<x>;t=\"a\\\"\", <y>;u")? else {
        assert!(rt; false);
        return Ok(());
    };
    let written = "<http://a/x>; t=\"a\\\"\", <http://a/y>; u";
    let displayed = format!(in rt.alloc(); "{set}")?;
    assert!(rt; displayed.as_str() == written);
    let mut buffer = [0u8; 64];
    for room in 0..=written.len() {
        if room > 64 {
            break;
        }
        let text = write_to_slice(&mut buffer[..room], &set);
        assert!(rt; text.is_ok() == (room == written.len()), "{room}");
        if let Ok(text) = text {
            assert!(rt; text == written, "{room}");
        }
    }
    laws::field_values_have_one_list::<UriSpec>();
    laws::no_fault_of_field_values::<UriSpec>();
    laws::written_links_are_read::<UriSpec>();
    laws::written_sets_are_read::<UriSpec>();
    Ok(())
}

#[test]
fn a_thousand_links(rt: HostRuntime) -> Result<(), Fail> {
    let mut field = String::new(rt.alloc());
    let mut written = String::new(rt.alloc());
    for i in 0..1000u32 {
        if i > 0 {
            field.push_str(",")?;
            written.push_str(", ")?;
        }
        let digits = i.try_to_string(rt.alloc())?;
        field.push_str("<./p/../")?;
        field.push_str(digits.as_str())?;
        field.push_str(">;n=")?;
        field.push_str(digits.as_str())?;
        written.push_str("<http://a/")?;
        written.push_str(digits.as_str())?;
        written.push_str(">; n=\"")?;
        written.push_str(digits.as_str())?;
        written.push_str("\"")?;
    }
    let Ok(set) = read(&rt, field.as_bytes())? else {
        assert!(rt; false);
        return Ok(());
    };
    assert!(rt; set.len() == 1000);
    assert!(rt; set.target(999) == Some("http://a/999"));
    assert!(rt; set.param_value(500, 0) == Some("500"));
    assert!(rt; set.try_to_string(rt.alloc())?.as_str() == written.as_str());
    Ok(())
}
