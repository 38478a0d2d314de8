// The variables of a template, to their end and beyond.
use iri_template::template::UriTemplateStr;
use std::test::Fail;

#[test]
fn variables_end(rt: HostRuntime) -> Result<(), Fail> {
    match UriTemplateStr::new("{a}x") {
        Ok(template) => {
            let mut variables = template.variables();
            let mut copy = variables.clone()?;
            assert!(rt; variables.next().is_some());
            assert!(rt; variables.next().is_none());
            assert!(rt; variables.next().is_none());
            assert!(rt; copy.next().is_some());
        }
        Err(_) => assert!(rt; false),
    }
    Ok(())
}
