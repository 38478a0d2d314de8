//! Hosts (RFC 3986 section 3.2.2, RFC 3987 section 2.2).
ghost use Rattle.std.specs.Prelude.{◌≡◌, ◌||◌, not, true};
ghost use Rattle.iri_grammar.specs.Host.{is_host};
ghost use Rattle.iri_grammar.specs.Ipv4.{is_ipv4};
ghost use Rattle.iri_grammar.specs.IpLiteral.{is_ip_literal};

use crate::class::Class;
use crate::ip_literal::is_ip_literal;
use crate::ipv4::is_ipv4;
use crate::over::is_over;
use crate::spec::Spec;

// Whether the text is an IP literal or a registered name, IPv4 texts among them.
pub(crate) fn is_host<S: Spec>(s: &str) -> bool
    ensures { result ≡ is_host S.tests s.now }
{
    is_ip_literal(s) || is_over::<S>(Class::RegName, s)
}

/// Whether the host is a registered name: no IP literal and no IPv4 address (RFC 3986 section 3.2.2). It has a
/// condition: the text is a host of `S`, which `validate::host` tests.
pub fn host_is_reg_name<S: Spec>(host: &str) -> bool
    requires { is_host S.tests host.now ≡ true }
    ensures { result ≡ not (is_ip_literal host.now || is_ipv4 host.now) }
{
    !(is_ip_literal(host) || is_ipv4(host))
}
