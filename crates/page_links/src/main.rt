//! `page_links`: tells a crawler which links of a page are new.
//!
//! The first line of standard input is the page's address, each further line a link as the page has it. A link that wasn't met
//! before is printed in canonical form, without its password, and with the address at which an archive has it. A line that is no
//! link is told with its first fault. The program stands on the library as any other program may.
#![tactic(auto)]

mod page;

use crate::page::page_of;
use iri::format::Text;
use iri::prelude::*;
use iri::resolve::FixedBaseResolver;
use iri::spec::UriSpec;
use iri::template::simple_context::{SimpleContext, Value};
use iri::template::{Error as TemplateFault, UriTemplateStr};
use iri::types::{UriReferenceStr, UriString};
use iri::validate::Error as LinkFault;
use std::alloc::{AllocError, Global};
use std::collections::BTreeSet;
use std::io::{self, BufRead, BufReader};
use thiserror::Error;

/// Where the archive has a page (RFC 6570).
const ARCHIVE: &str = "https://archive.example/page{?url}";

/// Why the program stops.
#[derive(Debug, Drop, Error)]
enum Stopped {
    #[error("the page's address: {0}")]
    Address(LinkFault),
    #[error("the archive's template: {0}")]
    Template(#[from] TemplateFault),
    #[error("out of memory")]
    Memory(#[from] AllocError),
    #[error("{0}")]
    Io(#[from] io::Error),
}

// The address at which the archive has a page.
fn archived(alloc: Global, page: &str) -> Result<String, Stopped> {
    let name = String::from_str(alloc, "url")?;
    let page = Text::from_string(String::from_str(alloc, page)?);
    let mut values = SimpleContext::new(alloc);
    let Ok(_) = values.insert(name, Value::String(page)) else {
        return Err(Stopped::Memory(AllocError));
    };
    let template = UriTemplateStr::new(ARCHIVE)?;
    let address = template.expand::<UriSpec, SimpleContext>(&values)?;
    Ok(format!(in alloc; "{address}")?)
}

// Prints where a link of the page leads, where that is new.
fn meet(
    rt: &(impl Print + AllocGlobal),
    page: &FixedBaseResolver<'_, UriSpec>,
    link: UriReferenceStr<'_>,
    met: &mut BTreeSet<UriString>,
) -> Result<(), Stopped> {
    let target = page.resolve(link).and_normalize();
    let Ok(target) = target.try_to_dedicated_string(rt.alloc()) else {
        return Err(Stopped::Memory(AllocError));
    };
    if !met.contains(&target) {
        let link = target.as_slice().mask_password().try_to_string(rt.alloc())?;
        println!(rt; "new {link} {}", archived(rt.alloc(), link.as_str())?)?;
        if met.insert(target).is_err() {
            return Err(Stopped::Memory(AllocError));
        }
    }
    Ok(())
}

fn main(rt: HostRuntime) -> Result<(), Stopped> {
    let reader = BufReader::new(rt.alloc(), rt.stdin())?;
    let mut lines = reader.split(rt.alloc(), b'\n');
    let address = match lines.next() {
        Some(line) => line?,
        None => Vec::new(rt.alloc()),
    };
    let page = match page_of(&address) {
        Ok(page) => FixedBaseResolver::new(page),
        Err(fault) => return Err(Stopped::Address(fault)),
    };
    let mut met = BTreeSet::new(rt.alloc());
    let mut number = 1u64;
    for line in lines {
        let line = line?;
        number = number.saturating_add(1);
        match UriReferenceStr::try_from_bytes(&line) {
            Ok(link) => meet(&rt, &page, link, &mut met)?,
            Err(fault) => println!(rt; "line {number}: {fault}")?,
        }
    }
    Ok(())
}
