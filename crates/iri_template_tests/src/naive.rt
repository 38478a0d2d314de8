// Expansions with numbers, texts, options, lists, sets and maps as values.
use iri_grammar::spec::UriSpec;
use iri_template::context::Context;
use iri_template::naive::{VisitValueNaive, visit_value_naive};
use iri_template::template::UriTemplateStr;
use iri_template::visitor::Visitor;
use iri_text::{Stop, ToStringFallible};
use std::alloc::Global;
use std::collections::{BTreeMap, BTreeSet};
use std::process::Abort;
use std::test::Fail;

// Each variable has this one value.
#[derive(Drop)]
struct Naive<T> {
    value: T,
}

impl<T: VisitValueNaive> Context for Naive<T> {
    ghost value_of = { λ n name. T.naive_value n.value };

    fn visit<V: Visitor>(&self, visitor: &mut V) -> Result<(), Stop> {
        visit_value_naive(visitor, &self.value)
    }
}

// A template has this expansion with one value for each variable.
fn gives<T: VisitValueNaive + Drop>(
    rt: &impl Abort,
    alloc: Global,
    template: &str,
    value: T,
    want: &str,
) -> Result<(), Fail> {
    let context = Naive { value };
    let text = UriTemplateStr::new(template)?
        .expand::<UriSpec, Naive<T>>(&context)?
        .try_to_string(alloc)?;
    assert_eq!(rt; text.as_str(), want, "{template}");
    Ok(())
}

#[test]
fn unsigned_numbers(rt: HostRuntime) -> Result<(), Fail> {
    gives(&rt, rt.alloc(), "{?v}", 255u8, "?v=255")?;
    gives(&rt, rt.alloc(), "{v:2}", 65535u16, "65")?;
    gives(&rt, rt.alloc(), "{v}", 7u32, "7")?;
    gives(&rt, rt.alloc(), "{v}", 7u64, "7")?;
    gives(&rt, rt.alloc(), "{v}", 7u128, "7")?;
    gives(&rt, rt.alloc(), "{v}", 7usize, "7")?;
    Ok(())
}

#[test]
fn signed_numbers(rt: HostRuntime) -> Result<(), Fail> {
    gives(&rt, rt.alloc(), "{v}", -8i8, "-8")?;
    gives(&rt, rt.alloc(), "{v}", -8i16, "-8")?;
    gives(&rt, rt.alloc(), "{v}", -8i32, "-8")?;
    gives(&rt, rt.alloc(), "{v}", -8i64, "-8")?;
    gives(&rt, rt.alloc(), "{v}", -8i128, "-8")?;
    gives(&rt, rt.alloc(), "{v}", -8isize, "-8")?;
    Ok(())
}

#[test]
fn texts_and_options(rt: HostRuntime) -> Result<(), Fail> {
    gives(&rt, rt.alloc(), "x{?v}", (), "x")?;
    gives(&rt, rt.alloc(), "{v}", "a b", "a%20b")?;
    let owned = "ab".to_string(rt.alloc())?;
    gives(&rt, rt.alloc(), "{v}", owned, "ab")?;
    gives(&rt, rt.alloc(), "{?v}", Some(1u8), "?v=1")?;
    gives::<Option<u8>>(&rt, rt.alloc(), "{?v}", None, "")?;
    Ok(())
}

#[test]
fn lists(rt: HostRuntime) -> Result<(), Fail> {
    gives(&rt, rt.alloc(), "{/v*}", [3u8, 1, 2], "/3/1/2")?;
    let list = vec![in rt.alloc(); 3u8, 1]?;
    gives(&rt, rt.alloc(), "{v}", list, "3,1")?;
    Ok(())
}

#[test]
fn trees(rt: HostRuntime) -> Result<(), Fail> {
    let mut set = BTreeSet::new(rt.alloc());
    assert!(rt; set.insert(3u8)?);
    assert!(rt; set.insert(1u8)?);
    gives(&rt, rt.alloc(), "{v}", set, "1,3")?;
    let mut map = BTreeMap::new(rt.alloc());
    assert!(rt; map.insert(3u8, "c")?.is_none());
    assert!(rt; map.insert(1u8, "a")?.is_none());
    gives(&rt, rt.alloc(), "{?v*}", map, "?1=a&3=c")?;
    Ok(())
}
