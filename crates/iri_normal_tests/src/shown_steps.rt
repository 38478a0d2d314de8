use crate::same::same;
use iri_grammar::spec::UriSpec;
use iri_resolve::mode::CanonMode;
use iri_resolve::normal_steps::{put_steps_in, show_steps};
use iri_resolve::resolver::FixedBaseResolver;
use iri_resolve::step::{Part, Step};
use iri_resolve::step_list::StepList;
use iri_text::SliceSink;
use iri_types::view::{RiAbsoluteStr, RiReferenceStr, RiStr};
use std::test::Fail;

#[test]
fn a_sink_of_steps_that_is_full(rt: HostRuntime) -> Result<(), Fail> {
    let Ok(view) = RiStr::<UriSpec>::new("HTTP://a/") else {
        return Err("a valid text is refused")?;
    };
    let mut buffer = [0; 20];
    let mut sink = SliceSink::new(&mut buffer);
    assert!(rt; show_steps(&mut sink, view).is_err());
    assert!(rt; "scheme letter 0\nscheme letter 1\n".starts_with(sink.as_str()));
    Ok(())
}

#[test]
fn steps_put_into_a_list(rt: HostRuntime) -> Result<(), Fail> {
    let Ok(base) = RiAbsoluteStr::<UriSpec>::new("http://a/") else {
        return Err("a valid base is refused")?;
    };
    let Ok(reference) = RiReferenceStr::<UriSpec>::new("%7e") else {
        return Err("a valid reference is refused")?;
    };
    let part = format!(in rt.alloc(); "{}", Part::Query)?;
    same(&rt, part.as_str(), "query");
    let target = FixedBaseResolver::new(base).target(rt.alloc(), reference)?;
    let mut steps = StepList::new(rt.alloc());
    steps.push(Step::Dots)?;
    assert!(rt; put_steps_in(&mut steps, CanonMode::Default, &target).is_ok());
    same(&rt, steps.len(), 2);
    assert!(rt; steps.get(1) == Some(Step::Decode(Part::Path, 1)));
    Ok(())
}
