use crate::same::same;
use iri_grammar::spec::UriSpec;
use iri_resolve::normal_steps::steps_to_normal;
use iri_resolve::owned_target::Target;
use iri_resolve::replay::replay;
use iri_resolve::resolver::FixedBaseResolver;
use iri_resolve::step::Step;
use iri_resolve::step_list::StepList;
use iri_types::view::{UriAbsoluteStr, UriReferenceStr};
use std::alloc::{AllocError, Global};
use std::test::Fail;

// The target of a reference against `http://a/`.
fn target(alloc: Global, reference: &str) -> Result<Target<UriSpec>, Fail> {
    let Ok(base) = UriAbsoluteStr::new("http://a/") else {
        return Err("a valid base is refused")?;
    };
    let Ok(reference) = UriReferenceStr::new(reference) else {
        return Err("a valid reference is refused")?;
    };
    Ok(FixedBaseResolver::new(base).target(alloc, reference)?)
}

// The prefix, and the unit so many times.
fn repeated(alloc: Global, prefix: &str, unit: &str, n: usize) -> Result<String, AllocError> {
    let mut text = String::from_str(alloc, prefix)?;
    for _ in 0..n {
        text.push_str(unit)?;
    }
    Ok(text)
}

// What the steps from the target of a reference to its normal form lead to.
fn normal(alloc: Global, reference: &str) -> Result<Target<UriSpec>, Fail> {
    let target = target(alloc, reference)?;
    let steps = steps_to_normal(alloc, &target)?;
    Ok(replay(alloc, &target, &steps)?)
}

#[test]
fn many_steps_in_long_parts(rt: HostRuntime) -> Result<(), Fail> {
    let host = repeated(rt.alloc(), "//", "AB", 1000)?;
    let small = repeated(rt.alloc(), "", "ab", 1000)?;
    let after = normal(rt.alloc(), host.as_str())?;
    same(&rt, after.authority(), Some(small.as_str()));
    let path = repeated(rt.alloc(), "/", "%41%c3", 500)?;
    let decoded = repeated(rt.alloc(), "/", "A%C3", 500)?;
    let after = normal(rt.alloc(), path.as_str())?;
    same(&rt, after.path(), decoded.as_str());
    Ok(())
}

#[test]
fn parts_of_a_target_in_normal_form(rt: HostRuntime) -> Result<(), Fail> {
    let after = normal(rt.alloc(), "HTTP://H/%7e")?;
    same(&rt, after.scheme(), "http");
    same(&rt, after.authority(), Some("h"));
    same(&rt, after.path(), "/~");
    Ok(())
}

// Where allocation fails the list is as it was.
#[test]
fn steps_kept_where_memory_is_refused(rt: HostRuntime) -> Result<(), Fail> {
    let mut steps = StepList::new(rt.alloc());
    if steps.push(Step::EmptyPort).is_err() {
        same(&rt, steps.len(), 0);
        return Err(AllocError)?;
    }
    assert!(rt; steps.get(0) == Some(Step::EmptyPort));
    Ok(())
}
