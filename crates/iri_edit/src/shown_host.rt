//! Whole texts shown with another host (RFC 3986 section 3.2.2).
ghost use Rattle.std.specs.Prelude.{◌++◌, false, true};
ghost use Rattle.iri_edit.specs.ShownHost.{HostShown};
ghost use Rattle.iri_types.specs.Texts.{text};

use crate::host::may_replace;
use crate::place::{around, host_at};
use iri_grammar::spec::Spec;
use iri_text::{Show, Stop, TextSink, show_three};
use iri_types::view::RiReferenceStr;

/// A text that is shown with another host, without memory.
///
/// ```
/// use iri::edit::{WithHost, with_host};
/// use iri::format::write_to_slice;
/// use iri::types::UriReferenceStr;
/// let shown: WithHost<'_> = with_host(UriReferenceStr::new("//g?y")?, "[::1]").ok_or("a host")?;
/// let mut buffer = [0; 16];
/// assert_eq!(rt; write_to_slice(&mut buffer, &shown)?, "//[::1]?y");
/// ```
#[derive(Clone, Copy)]
pub struct WithHost<'a> {
    prefix: &'a str,
    host: &'a str,
    back: &'a str,
}

impl Show for WithHost<'_> {
    ghost use Rattle.iri_edit.specs.ShownHost.{shown};

    ghost text = { shown };

    fn show<W: TextSink>(&self, sink: &mut W) -> Result<(), Stop> {
        show_three(sink, &self.prefix, &self.host, &self.back)
    }
}

// The text with another host, where it may be replaced.
fn with_other_host<'a, S: Spec>(
    reference: RiReferenceStr<'a, S>,
    new_host: &'a str,
    names_only: bool,
) -> Option<WithHost<'a>>
    ensures { HostShown S.tests names_only (text reference.entry) new_host.now result }
{
    let Some((start, host)) = host_at(reference) else {
        return None;
    };
    if !may_replace::<S>(host, new_host, names_only) {
        return None;
    }
    let (prefix, back) = around(reference.as_str(), start, start + host.len());
    Some(WithHost {
        prefix,
        host: new_host,
        back,
    })
}

/// A reference with another host in place of its own. `None` exactly where there is no authority or the new host is no host.
///
/// ```
/// use iri::edit::with_host;
/// use iri::format::ToStringFallible;
/// use iri::types::UriReferenceStr;
/// let link = UriReferenceStr::new("http://192.0.2.16:80/")?;
/// let shown = with_host(link, "[2001:db8::7]").ok_or("a host")?;
/// assert_eq!(rt; shown.try_to_string(rt.alloc())?.as_str(), "http://[2001:db8::7]:80/");
/// ```
pub fn with_host<'a, S: Spec>(
    reference: RiReferenceStr<'a, S>,
    new_host: &'a str,
) -> Option<WithHost<'a>>
    ensures { HostShown S.tests false (text reference.entry) new_host.now result }
{
    with_other_host(reference, new_host, false)
}

/// A reference with another host in place of its own, where that is a registered name; `None` also where it is an IP
/// literal or an IPv4 address.
///
/// ```
/// use iri::edit::with_host_reg_name;
/// use iri::types::UriReferenceStr;
/// let link = UriReferenceStr::new("http://192.0.2.16:80/")?;
/// assert!(rt; with_host_reg_name(link, "example.com").is_none());
/// ```
pub fn with_host_reg_name<'a, S: Spec>(
    reference: RiReferenceStr<'a, S>,
    new_host: &'a str,
) -> Option<WithHost<'a>>
    ensures { HostShown S.tests true (text reference.entry) new_host.now result }
{
    with_other_host(reference, new_host, true)
}
